//! Totals, cycles and saved states as an independent simulator wrote them.
use super::Answer;
use super::models::{JUMP, MILL, MILL_FROM_4, MILL_FROM_21, PHONE};

/// Two servers to which nobody comes.
const QUIET: &str = "format = 1
model = \"shop\"
end = 9
from = 3
station = [ { name = \"s\", servers = 2 } ]
class = [ { name = \"c\", route = [ { at = \"s\", service = { law = \"fixed\", value = 1 } } ] } ]
";

/// A job jumps for ever, up to the last step of the tick.
const CHAIN: &str = "format = 1
model = \"shop\"
end = 5
class = [ { name = \"c\", times = [0], route = [ { label = \"x\", go = [\"x\"] } ] } ]
";

/// What is told of `PHONE` in its first four cycles, and the state after them.
const PHONE_SAVED: &str = "0.0 caller make 1 1
0.1 phone take 1 1
1.0 caller make 2 2
1.1 phone wait 2 1
2.0 caller make 3 3
2.1 phone wait 3 2
4.0 phone done 1 2
4.0 phone renege 2 3
state 1
count 8
objects 2
object 6 8 0 1 0 1 0 0 0 0 5 1 0 2 18446744073709551613 3 2 1 2 2 1 2 2 4 5
object 3 3 0 3 3 0
events 4
event 4.1 8 1 0 3 2 1099511627777 0
event 4.1 8 1 0 5 2 2199023255554 1
event 4.1 16 0 0 4 4 0 0
event 5.0 3 0 0 2 5 1 0
model 230
format = 1
model = \"shop\"
end = 10
station = [ { name = \"phone\" } ]
class = [ { name = \"caller\", times = [0, 1, 2], route = [ { at = \"phone\", service = { law = \"fixed\", value = 4 }, patience = { law = \"fixed\", value = 3 } } ] } ]
";

/// The same state alone.
const PHONE_STATE: &str = "state 1
count 8
objects 2
object 6 8 0 1 0 1 0 0 0 0 5 1 0 2 18446744073709551613 3 2 1 2 2 1 2 2 4 5
object 3 3 0 3 3 0
events 4
event 4.1 8 1 0 3 2 1099511627777 0
event 4.1 8 1 0 5 2 2199023255554 1
event 4.1 16 0 0 4 4 0 0
event 5.0 3 0 0 2 5 1 0
model 230
format = 1
model = \"shop\"
end = 10
station = [ { name = \"phone\" } ]
class = [ { name = \"caller\", times = [0, 1, 2], route = [ { at = \"phone\", service = { law = \"fixed\", value = 4 }, patience = { law = \"fixed\", value = 3 } } ] } ]
";

/// What is told from there on.
const PHONE_RESUMED: &str = "4.1 caller leave 1 4
4.1 caller drop 2 3
4.2 phone call 3 2
8.0 phone done 3 0
8.1 caller leave 3 6
end 10 events 15
";

/// Totals are sums over what is told, cycles end at their horizons, a jump for ever ends at the limit, and a saved state keeps
/// who lost patience.
pub(super) const ALL: [Answer; 10] = [
    (
        "totals",
        MILL,
        0,
        "mill came 3 begun 3 done 3 lost 0 reneged 0 busy 9 waiting 3 open 20 down 0
mill/part came 3 begun 3 done 3 lost 0 reneged 0 waited 3
part made 3 left 3 dropped 0 late 0 ages 12 inside 12
end 20 events 14
",
    ),
    (
        "totals",
        MILL_FROM_4,
        0,
        "mill came 1 begun 2 done 3 lost 0 reneged 0 busy 6 waiting 2 open 16 down 0
mill/part came 1 begun 2 done 3 lost 0 reneged 0 waited 3
part made 1 left 3 dropped 0 late 0 ages 12 inside 8
end 20 events 14
",
    ),
    (
        "totals",
        MILL_FROM_21,
        0,
        "mill came 0 begun 0 done 0 lost 0 reneged 0 busy 0 waiting 0 open 0 down 0
mill/part came 0 begun 0 done 0 lost 0 reneged 0 waited 0
part made 0 left 0 dropped 0 late 0 ages 0 inside 0
end 20 events 14
",
    ),
    (
        "totals",
        QUIET,
        0,
        "s came 0 begun 0 done 0 lost 0 reneged 0 busy 0 waiting 0 open 12 down 0
s/c came 0 begun 0 done 0 lost 0 reneged 0 waited 0
c made 0 left 0 dropped 0 late 0 ages 0 inside 0
end 9 events 0
",
    ),
    (
        "totals",
        JUMP,
        7,
        "c made 1 left 0 dropped 0 late 0 ages 0 inside 0
limit 3
",
    ),
    (
        "totals",
        CHAIN,
        1,
        "c made 1 left 0 dropped 0 late 0 ages 0 inside 0
fault 0.65535 c chain
",
    ),
    (
        "run --cycles",
        MILL,
        0,
        "1.0 part make 1 1
cycle 1 horizon 1.1 events 1
1.1 mill take 1 1
3.0 part make 2 2
cycle 2 horizon 3.1 events 2
3.1 mill wait 2 1
4.0 mill done 1 1
cycle 3 horizon 4.1 events 2
4.1 part leave 1 3
4.1 mill call 2 1
5.0 part make 3 2
cycle 4 horizon 5.1 events 3
5.1 mill wait 3 1
7.0 mill done 2 1
cycle 5 horizon 7.1 events 2
7.1 part leave 2 4
7.1 mill call 3 2
cycle 6 horizon 10.0 events 2
10.0 mill done 3 0
cycle 7 horizon 10.1 events 1
10.1 part leave 3 5
cycle 8 horizon 21.0 events 1
end 20 events 14
",
    ),
    (
        "run",
        JUMP,
        7,
        "0.0 c make 1 1
0.1 c go 1 0
0.2 c go 1 0
limit 3
",
    ),
    ("save 4", PHONE, 0, PHONE_SAVED),
    ("resume", PHONE_STATE, 0, PHONE_RESUMED),
];
