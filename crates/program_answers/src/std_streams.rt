//! The streams of a process as a program takes them.
ghost use Rattle.program_answers.specs.Answered.{streams};
ghost use Rattle.program_answers.specs.Process.{AreMadeOf, EndsBy};

use crate::process_end::ProcessEnd;
use sim_io::{GatheringSink, Sink, Source, StdSink, StdSource};
use std::alloc::Global;
use std::io::{Read, Write};

/// A reader, a writer to which the output goes in pieces of 16 KiB, and a writer for the notes.
#[derive(Drop)]
pub struct StdStreams<I, O, N> {
    pub source: StdSource<I>,
    pub out: GatheringSink<StdSink<O>>,
    pub notes: StdSink<N>,
}

impl<I: Read, O: Write, N: Write> StdStreams<I, O, N> {
    /// These streams, as a program takes them.
    pub fn new(alloc: Global, input: I, output: O, notes: N) -> StdStreams<I, O, N>
        ensures { AreMadeOf ⟦<StdSource<I> as Source>⟧ ⟦<GatheringSink<StdSink<O>> as Sink>⟧ ⟦<StdSink<N> as Sink>⟧
            I.remaining O.contents N.contents (streams result.source result.out result.notes) (streams input output notes) }
    {
        StdStreams {
            source: StdSource::new(input),
            out: GatheringSink::new(alloc, StdSink::new(output)),
            notes: StdSink::new(notes),
        }
    }

    /// How a process ends whose program answered this status. What is still kept back of the output is dropped.
    pub fn end(self, status: u8) -> ProcessEnd<I, O, N>
        ensures { EndsBy ⟦<StdSource<I> as Source>⟧ ⟦<GatheringSink<StdSink<O>> as Sink>⟧ ⟦<StdSink<N> as Sink>⟧
            I.remaining O.contents N.contents status (streams self.source self.out self.notes) result }
    {
        let StdStreams { source, out, notes } = self;
        ProcessEnd {
            status,
            read_faults: source.faults(),
            write_faults: out.inner().faults(),
            note_faults: notes.faults(),
            input: source.into_inner(),
            output: out.into_inner().into_inner(),
            notes: notes.into_inner(),
        }
    }
}
