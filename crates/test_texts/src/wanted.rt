//! The texts of small models, as they were worked out by hand.

pub const TIE_TEXT: &str = "0.0 p1 hop 5 2
5.0 p0 hop 5 1
5.0 p2 hop 5 0
end 9 events 3
";

pub const SHOP_TEXT: &str = "1.0 in make 1 2
1.1 s take 1 0
3.0 in make 2 1
3.1 s wait 2 1
4.0 s done 1 0
4.1 out leave 1 3
5.0 in make 3 0
5.1 s wait 3 1
7.0 s done 2 0
7.1 out leave 2 4
10.0 s done 3 0
10.1 out leave 3 5
end 20 events 12
";

pub const SHOP_CYCLES: &str = "1.0 in make 1 2
cycle 1 horizon 1.1 events 1
1.1 s take 1 0
3.0 in make 2 1
cycle 2 horizon 3.1 events 2
3.1 s wait 2 1
4.0 s done 1 0
cycle 3 horizon 4.1 events 2
4.1 out leave 1 3
5.0 in make 3 0
cycle 4 horizon 5.1 events 2
5.1 s wait 3 1
7.0 s done 2 0
cycle 5 horizon 7.1 events 2
7.1 out leave 2 4
10.0 s done 3 0
cycle 6 horizon 10.1 events 2
10.1 out leave 3 5
cycle 7 horizon 21.0 events 1
end 20 events 12
";

/// The same where it may have ten events: a limit inside a bucket, which has no line.
pub const TEN_EVENTS: &str = "1.0 in make 1 2
cycle 1 horizon 1.1 events 1
1.1 s take 1 0
3.0 in make 2 1
cycle 2 horizon 3.1 events 2
3.1 s wait 2 1
4.0 s done 1 0
cycle 3 horizon 4.1 events 2
4.1 out leave 1 3
5.0 in make 3 0
cycle 4 horizon 5.1 events 2
5.1 s wait 3 1
7.0 s done 2 0
cycle 5 horizon 7.1 events 2
7.1 out leave 2 4
limit 10
";

/// The same with eleven: a limit just after a bucket, which leaves the bucket its line.
pub const ELEVEN_EVENTS: &str = "1.0 in make 1 2
cycle 1 horizon 1.1 events 1
1.1 s take 1 0
3.0 in make 2 1
cycle 2 horizon 3.1 events 2
3.1 s wait 2 1
4.0 s done 1 0
cycle 3 horizon 4.1 events 2
4.1 out leave 1 3
5.0 in make 3 0
cycle 4 horizon 5.1 events 2
5.1 s wait 3 1
7.0 s done 2 0
cycle 5 horizon 7.1 events 2
7.1 out leave 2 4
10.0 s done 3 0
cycle 6 horizon 10.1 events 2
limit 11
";

/// The text of a station that meets a fault of its own where it runs ahead, and none where it doesn't.
pub const FALSE_FAULT_TEXT: &str = "5.0 s take 1 0
9.0 s done 1 0
9.1 out leave 1 4
10.0 s take 2 0
11.0 s wait 3 1
14.0 s done 2 0
14.1 out leave 2 4
18.0 s done 3 0
18.1 out leave 3 7
end 30 events 9
";
