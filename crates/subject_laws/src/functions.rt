//! A circuit without loops and flip-flops computes a function of its inputs.
ghost use Rattle.subject_laws.specs.CircuitFunctions.{ComputesItsFunction, InputsDecide};

/// A circuit without loops and flip-flops that has settled computes its function: each gate puts out what its formula over
/// the inputs gives. So what the inputs put out decides what every gate puts out, however it came to that.
pub fn law_functions()
    ensures computed { ComputesItsFunction }
    ensures decided { InputsDecide }
{}
