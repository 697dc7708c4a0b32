//! Worked examples: what the definitions come to on small circuits, computed in the prover. Each function does nothing:
//! its contract is the example.
ghost use Rattle.std.specs.Prelude.{◌≡◌, [], ◌∷◌};
ghost use Rattle.circuit_model.specs.Gates.{HasPins};
ghost use Rattle.circuit_model.specs.Parts.{IsCircuit};
ghost use Rattle.circuit_model.specs.declared.gate.LogicKind.TheVariants.{Buf, Not, And, Or, Xor, Nand, Nor, Dff};
ghost use Rattle.subject_laws.specs.CircuitExamples.{outputs, summary, gates_in_line, line_told, to_five};
ghost use Rattle.subject_laws.specs.CircuitExamples.{flip_flop, flip_flop_told, to_nine, ring, ring_told, to_three_events, nine_fed};
ghost use Rattle.subject_laws.specs.CircuitExamples.{fires_last};
ghost use Rattle.sim_spec.specs.declared.stop.Stop.TheVariants.{End, Limit};
ghost use Rattle.sim_spec.specs.Firing.{fails};

/// The truth tables of gates with two pins, at 00, 01, 10 and 11.
pub fn each_kind_has_its_truth_table()
    ensures buf { outputs Buf ≡ 0 ∷ 0 ∷ 1 ∷ 1 ∷ [] }
    ensures not { outputs Not ≡ 1 ∷ 1 ∷ 0 ∷ 0 ∷ [] }
    ensures and { outputs And ≡ 0 ∷ 0 ∷ 0 ∷ 1 ∷ [] }
    ensures or { outputs Or ≡ 0 ∷ 1 ∷ 1 ∷ 1 ∷ [] }
    ensures xor { outputs Xor ≡ 0 ∷ 1 ∷ 1 ∷ 0 ∷ [] }
    ensures nand { outputs Nand ≡ 1 ∷ 1 ∷ 1 ∷ 0 ∷ [] }
    ensures nor { outputs Nor ≡ 1 ∷ 0 ∷ 0 ∷ 0 ∷ [] }
{}

/// An input turns at tick 2. It reaches one pin of an `And` at once, and the other one through a `Not`, a tick later:
/// so the `And` gives a pulse of a tick.
pub fn a_level_runs_through_gates()
    ensures circuit { IsCircuit gates_in_line }
    ensures run { summary gates_in_line to_five ≡ (line_told, End, 7) }
{}

/// A flip-flop takes its data when its clock rises, at ticks 2 and 6, and neither when the clock falls nor when the data
/// changes.
pub fn a_flip_flop_takes_its_data_when_its_clock_rises()
    ensures { summary flip_flop to_nine ≡ (flip_flop_told, End, 11) }
{}

/// A `Not` without delay that feeds itself turns at every step of tick 0 ..
pub fn a_ring_without_delay_turns_at_every_step()
    ensures circuit { IsCircuit ring }
    ensures run { summary ring to_three_events ≡ (ring_told, Limit, 3) }
{}

/// .. and fails at the last one.
pub fn a_ring_without_delay_fails_at_the_last_step()
    ensures { fires_last ≡ fails 1 }
{}

/// Nine pins are too many for one gate to feed.
pub fn nine_pins_are_too_many()
    ensures { IsCircuit nine_fed → ⊥ }
{}

/// A flip-flop has two pins: data and clock.
pub fn a_flip_flop_has_no_third_pin()
    ensures { HasPins Dff 3 → ⊥ }
{}
