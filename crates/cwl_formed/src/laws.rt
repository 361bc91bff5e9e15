//! Laws of the definitions, which say nothing of code.

ghost use Rattle.cwl_formed.specs.Given.{ObjectsStand, TextsStand};
ghost use Rattle.cwl_formed.specs.Images.{ImagesAreFormed, ImagesStand};

/// What is written for the process of a checked form of the subset stands for that process (CWL
/// v1.2, Workflow and CommandLineTool), where its texts hold no NUL: no source has a further
/// slash, the pieces of arguments are joined, codes are ascending bytes, and defaults are
/// literals.
pub fn images_stand()
    ensures formed { ImagesAreFormed }
    ensures stand { ImagesStand }
{}

/// What is written as the input object of that process (CWL v1.2, "Executing CWL documents as
/// scripts") reads, by the types of the inputs of the process, as the inputs that were given, where
/// these fit the workflow. Its members are in byte order. What a text of inputs gives is read in
/// the order in which the workflow declares it.
pub fn objects_stand()
    ensures fitting { ObjectsStand }
    ensures texts { TextsStand }
{}
