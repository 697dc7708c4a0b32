//! Texts of runs in which shifts change, stations stand still and jobs lose their patience.
use super::Run;
use super::models::PHONE;

const TILL: Run = Run {
    shows: "a shift opens two servers, and another one closes them",
    model: "format = 1
model = \"shop\"
end = 20
station = [ { name = \"till\", shifts = [ { at = 5, servers = 3 }, { at = 8, servers = 1 } ] } ]
class = [ { name = \"cust\", times = [0, 1, 2, 3, 7], route = [ { at = \"till\", service = { law = \"fixed\", value = 6 } } ] } ]
",
    text: "0.0 cust make 1 1
0.1 till take 1 1
1.0 cust make 2 2
1.1 till wait 2 1
2.0 cust make 3 3
2.1 till wait 3 2
3.0 cust make 4 4
3.1 till wait 4 3
5.0 till open 3 1
5.1 till call 2 4
5.2 till call 3 3
6.0 till done 1 1
6.1 cust leave 1 6
6.1 till call 4 3
7.0 cust make 5 4
7.1 till wait 5 1
8.0 till open 1 3
11.0 till done 2 1
11.0 till done 3 1
11.1 cust leave 2 10
11.1 cust leave 3 9
12.0 till done 4 1
12.1 cust leave 4 9
12.1 till call 5 5
18.0 till done 5 0
18.1 cust leave 5 11
end 20 events 26
",
};

const GATE: Run = Run {
    shows: "shifts come again after six ticks",
    model: "format = 1
model = \"shop\"
end = 13
station = [ { name = \"gate\", servers = 0, shifts = [ { at = 2, servers = 1 }, { at = 5, servers = 0 } ], period = 6 } ]
class = [ { name = \"c\", times = [0, 1, 4], route = [ { at = \"gate\", service = { law = \"fixed\", value = 2 } } ] } ]
",
    text: "0.0 c make 1 1
0.1 gate wait 1 1
1.0 c make 2 2
1.1 gate wait 2 2
2.0 gate open 1 0
2.1 gate call 1 2
4.0 gate done 1 1
4.0 c make 3 3
4.1 gate wait 3 2
4.1 c leave 1 4
4.1 gate call 2 3
5.0 gate open 0 1
6.0 gate done 2 1
6.1 c leave 2 5
8.0 gate open 1 0
8.1 gate call 3 4
10.0 gate done 3 0
10.1 c leave 3 6
11.0 gate open 0 0
end 13 events 19
",
};

const SAW: Run = Run {
    shows: "a standstill puts a service off",
    model: "format = 1
model = \"shop\"
end = 20
station = [ { name = \"saw\", up = { law = \"fixed\", value = 5 }, down = { law = \"fixed\", value = 3 } } ]
class = [ { name = \"log\", times = [0, 4], route = [ { at = \"saw\", service = { law = \"fixed\", value = 4 } } ] } ]
",
    text: "0.0 saw up 0 0
0.0 log make 1 1
0.1 saw take 1 1
4.0 saw done 1 0
4.0 log make 2 2
4.1 saw take 2 1
4.1 log leave 1 4
5.0 saw down 3 1
8.0 saw up 0 1
11.0 saw done 2 0
11.1 log leave 2 7
13.0 saw down 3 0
16.0 saw up 0 0
end 20 events 14
",
};

const STANDSTILLS: Run = Run {
    shows: "two standstills put a service off twice, and who lost patience goes before a calmer class",
    model: "format = 1
model = \"shop\"
end = 18
station = [ { name = \"st\", servers = 2, order = \"priority\", up = { law = \"fixed\", value = 3 }, down = { law = \"fixed\", value = 2 } } ]
class = [
  { name = \"lo\", times = [0, 0, 1], priority = 1, route = [ { at = \"st\", service = { law = \"fixed\", value = 5 } } ] },
  { name = \"hi\", times = [2], route = [ { at = \"st\", service = { law = \"fixed\", value = 1 }, patience = { law = \"fixed\", value = 3 } } ] } ]
",
    text: "0.0 st up 0 0
0.0 lo make 1 1
0.0 lo make 2 2
0.1 st take 1 1
0.1 st take 2 2
1.0 lo make 3 3
1.1 st wait 3 1
2.0 hi make 10000001 1
2.1 st wait 10000001 2
3.0 st down 2 2
5.0 st up 2 2
5.0 st renege 10000001 3
5.1 hi drop 10000001 3
7.0 st done 1 1
7.0 st done 2 1
7.1 lo leave 1 7
7.1 lo leave 2 7
7.1 st call 3 6
8.0 st down 2 1
10.0 st up 0 1
13.0 st down 2 1
15.0 st up 0 1
16.0 st done 3 0
16.1 lo leave 3 15
18.0 st down 2 0
end 18 events 31
",
};

const PHONE_RUN: Run = Run {
    shows: "patience ends before a server calls",
    model: PHONE,
    text: "0.0 caller make 1 1
0.1 phone take 1 1
1.0 caller make 2 2
1.1 phone wait 2 1
2.0 caller make 3 3
2.1 phone wait 3 2
4.0 phone done 1 2
4.0 phone renege 2 3
4.1 caller leave 1 4
4.1 caller drop 2 3
4.2 phone call 3 2
8.0 phone done 3 0
8.1 caller leave 3 6
end 10 events 15
",
};

pub(super) const ALL: [Run; 5] = [TILL, GATE, SAW, STANDSTILLS, PHONE_RUN];
