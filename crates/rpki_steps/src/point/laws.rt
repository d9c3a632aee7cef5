//! Laws of publication points: the contracts of functions that do nothing.

ghost use Rattle.rpki_steps.specs.PointFiles.{FilesAreListed};
ghost use Rattle.rpki_steps.specs.PointOctets.{FilesHaveHashes};

/// The files of a point are those that the rules know by their lookup keys, in the manifest's order.
pub fn files_are_listed()
    ensures { FilesAreListed }
{}

/// The octets of a point's files have the hashes that its manifest lists, in its order.
pub fn files_have_hashes()
    ensures { FilesHaveHashes }
{}
