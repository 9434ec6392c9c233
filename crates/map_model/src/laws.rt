//! Laws of the model, each as the contract of a function.
ghost use Rattle.map_model.specs.Laws.{PartsMakeTheMap, StepsStayInTheirPart, AnswersStayInTheirPart, PartsFoldAlone, ChangesAreLegalInPlace, ReadsAreLegalInPlace};

/// The parts of all stripes make the map, and a step stays in the part of its key.
pub fn laws_of_parts()
    ensures union { PartsMakeTheMap }
    ensures steps { StepsStayInTheirPart }
    ensures answers { AnswersStayInTheirPart }
    ensures folds { PartsFoldAlone }
{}

/// A call is legal where it stands, with the answer of the map there.
pub fn laws_of_histories()
    ensures changes { ChangesAreLegalInPlace }
    ensures reads { ReadsAreLegalInPlace }
{}
