//! What the tests share.
/// A table: its first line, and these rows.
macro_rules! table {
    ($($row:literal)*) => {
        concat!(
            "seed,object,arrivals,served,lost,busy,waiting,age,longest,ticks,events,stop\n",
            $($row, "\n"),*
        )
    };
}

mod programs;
mod studies;
mod words;

// By an independent ChaCha20 the first delays of object 0 are 5, 3 and 4 ticks under seed 0, 8 under seed 1, 1, 5 and 10 under
// seed 2, and 8 under the last seed. The rest follows by hand: hops happen up to time 8.
/// One hop after another, under the seeds 0, 1 and 2, and under the last seed and the first.
const HOPS_OF_THREE: &str = table!(
    "0,p0,3,3,0,0,0,0,0,8,3,end"
    "1,p0,2,2,0,0,0,0,0,8,2,end"
    "2,p0,3,3,0,0,0,0,0,8,3,end"
);

const HOPS_OF_THE_LAST: &str = table!(
    "9223372036854775807,p0,2,2,0,0,0,0,0,8,2,end"
    "0,p0,3,3,0,0,0,0,0,8,3,end"
);
