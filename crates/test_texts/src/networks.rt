//! Texts of networks.

/// The network of what stands at the top, and of these objects.
macro_rules! network {
    ($top:literal, $objects:literal) => {
        concat!("format = 1\nmodel = \"network\"\n", $top, "\n", $objects)
    };
}

/// A source of three jobs, a station that serves them one after another, and a sink, with these terms.
macro_rules! shop {
    ($terms:literal) => {
        network!(
            $terms,
            "
[[object]]
name = \"in\"
kind = \"source\"
first = 1
every = { law = \"fixed\", value = 2 }
count = 3
next = \"s\"

[[object]]
name = \"s\"
kind = \"station\"
servers = 1
line = 10
service = { law = \"fixed\", value = 3 }
next = \"out\"

[[object]]
name = \"out\"
kind = \"sink\"
"
        )
    };
}

/// A bank with geometric times, up to this end.
macro_rules! bank {
    ($end:literal) => {
        network!(
            $end,
            "
# customers come about every 10 ticks, three desks, one in ten comes again
[[object]]
name = \"door\"
kind = \"source\"
first = 0
every = { law = \"geometric\", p = 429496729, cap = 200 }
count = 1000
next = \"desk\"

[[object]]
name = \"desk\"
kind = \"station\"
servers = 3
line = 50
service = { law = \"geometric\", p = 214748364, cap = 600 }
next = \"split\"

[[object]]
name = \"split\"
kind = \"router\"
next = [\"out\", \"again\"]
weights = [9, 1]

[[object]]
name = \"again\"
kind = \"delay\"
delay = { law = \"uniform\", low = 5, high = 20 }
next = \"desk\"

[[object]]
name = \"out\"
kind = \"sink\"
"
        )
    };
}

/// Two routers that send a job to and fro in one tick, with these terms.
macro_rules! router_loop {
    ($terms:literal) => {
        network!(
            $terms,
            "
[[object]]
name = \"r0\"
kind = \"router\"
next = [\"r1\"]

[[object]]
name = \"r1\"
kind = \"router\"
next = [\"r0\"]

[[job]]
time = 0
at = \"r0\"
"
        )
    };
}

/// A station with these fields and a sink, up to this end, and the jobs that come to the station.
macro_rules! station {
    ($end:literal, $fields:literal, $jobs:literal) => {
        concat!(
            "format = 1\nmodel = \"network\"\n",
            $end,
            "\n
[[object]]
name = \"s\"
kind = \"station\"
",
            $fields,
            "next = \"out\"

[[object]]
name = \"out\"
kind = \"sink\"
",
            $jobs
        )
    };
}

/// Two jobs that come at one time to a station that serves one after another, behind what stands in front.
macro_rules! two_jobs {
    ($front:literal) => {
        concat!(
            $front,
            "format = 1
model = \"network\"
end = 10

[[object]]
name = \"s\"
kind = \"station\"
service = { law = \"fixed\", value = 2 }
next = \"out\"

[[object]]
name = \"out\"
kind = \"sink\"

[[job]]
time = 4
at = \"s\"

[[job]]
time = 4
at = \"s\"
"
        )
    };
}

/// The shop.
pub const SHOP: &str = shop!("end = 20");

/// The shop, which may have ten events.
pub const SHOP_OF_TEN: &str = shop!("end = 20\nlimit = 10");

pub const SHOP_OF_ELEVEN: &str = shop!("end = 20\nlimit = 11");

pub const SHOP_OF_TWELVE: &str = shop!("end = 20\nlimit = 12");

/// The bank, until all customers have gone.
pub const BANK: &str = bank!("end = 100000\nseed = 7");

pub const SHORT_BANK: &str = bank!("end = 3000\nseed = 7");

/// The routers, which may have ten events.
pub const ROUTER_LOOP: &str = router_loop!("end = 5\nlimit = 10");

/// The same with four events.
pub const SHORT_ROUTER_LOOP: &str = router_loop!("end = 5\nlimit = 4");

/// The same with more events than a tick has steps.
pub const LONG_ROUTER_LOOP: &str = router_loop!("end = 5\nlimit = 100000");

/// The two jobs: 223 bytes.
pub const TWO_JOBS: &str = two_jobs!("");

/// Their state after the first cycle, with its model.
pub const SAVED_TWO_JOBS: &str = two_jobs!(
    "state 1
count 2
objects 2
object 1 2 0 1 2 1 2 1 4
object 0 1 0 0
events 1
event 6.0 0 0 0 0 2 1 4
model 223
"
);

/// A station without a line, which loses the second job.
pub const LOSING: &str = station!(
    "end = 10",
    "service = { law = \"fixed\", value = 5 }\nline = 0\n",
    "\n[[job]]\ntime = 1\nat = \"s\"\n\n[[job]]\ntime = 2\nat = \"s\"\n"
);

/// A station that serves no job before the end, and whose line of one place is full where the third job comes: it fails.
pub const STRICT_LINE: &str = station!(
    "end = 30",
    "service = { law = \"fixed\", value = 100 }\nline = 1\nstrict = true\n",
    "\n[[job]]\ntime = 5\nat = \"s\"\n\n[[job]]\ntime = 6\nat = \"s\"\n\n[[job]]\ntime = 7\nat = \"s\"\n"
);

/// A station that serves a job for 4 ticks, has room for one more and fails where a third one comes. No job comes by itself.
pub const STRICT_STATION: &str = station!(
    "end = 30",
    "service = { law = \"fixed\", value = 4 }\nline = 1\nstrict = true\n",
    ""
);

/// That station with jobs of which the third one comes just after the first has left. Where it runs ahead of the end of the
/// first service it meets a fault, and else none.
pub const FALSE_FAULT: &str = station!(
    "end = 30",
    "service = { law = \"fixed\", value = 4 }\nline = 1\nstrict = true\n",
    "\n[[job]]\ntime = 5\nat = \"s\"\n\n[[job]]\ntime = 10\nat = \"s\"\n\n[[job]]\ntime = 11\nat = \"s\"\n"
);

/// A job that comes to its sink when it is four ticks old, and one tick late.
pub const LATE: &str = network!(
    "end = 10",
    "
[[object]]
name = \"d\"
kind = \"delay\"
delay = { law = \"fixed\", value = 4 }
next = \"out\"

[[object]]
name = \"out\"
kind = \"sink\"
due = 3

[[job]]
time = 0
at = \"d\"
"
);
