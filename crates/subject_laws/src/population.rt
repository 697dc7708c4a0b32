//! PHOLD keeps its population.
ghost use Rattle.subject_laws.specs.PholdLaws.{PopulationStays};

/// PHOLD keeps its population: in every reached state as many events are pending as at the start (Fujimoto 1990).
pub fn law_population()
    ensures { PopulationStays }
{}
