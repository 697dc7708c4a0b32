//! Texts of PHOLD.

/// Three objects in a ring, whose events take five ticks from each to the next, with these terms. The second initial event
/// ties with what the first one sends.
macro_rules! tie {
    ($terms:literal) => {
        concat!(
            "format = 1\nmodel = \"phold\"\n",
            $terms,
            "

[phold]
objects = 3
delay = { law = \"fixed\", value = 5 }
to = \"next\"
start = [ { time = 0, at = 1 }, { time = 5, at = 0 } ]
"
        )
    };
}

/// One object that sends to itself from time 0 on, with these delays and up to this end.
macro_rules! alone {
    ($end:literal, $delay:literal) => {
        concat!(
            "format = 1\nmodel = \"phold\"\n",
            $end,
            "
seed = 0

[phold]
objects = 1
delay = ",
            $delay,
            "
to = \"uniform\"
start = [ { time = 0, at = 0 } ]
"
        )
    };
}

pub const TIE: &str = tie!("end = 9");

/// The same with two events.
pub const SHORT_TIE: &str = tie!("end = 9\nlimit = 2");

/// The same up to the tick 12.
pub const LONG_TIE: &str = tie!("end = 12");

/// The same up to the tick 20.
pub const LONGER_TIE: &str = tie!("end = 20");

/// One object that draws its delays.
pub const DRAWN: &str = alone!("end = 8", "{ law = \"uniform\", low = 1, high = 10 }");

/// The same up to the tick before its last event.
pub const SHORT_DRAWN: &str = alone!("end = 7", "{ law = \"uniform\", low = 1, high = 10 }");

/// One object that sends to itself without delay.
pub const ENDLESS: &str = alone!("end = 8", "{ law = \"fixed\", value = 0 }");
