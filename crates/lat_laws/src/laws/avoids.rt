//! The law of avoided peers.

ghost use Rattle.lat_laws.specs.avoids.Avoided.{AvoidedAreGone, OthersStay, AvoidIsAnswered, AvoidedUntilHeard, UnknownAreNotChosen, DirectoryStays};

/// Behind an avoid the directory has nothing from the address of the peer of the line's newest session (`gone`), until an
/// announcement from it is heard (`until`), so who is chosen is another one (`chosen`). Of the others it has what it had
/// (`others`). Only announcements and avoids change it (`stays`).
pub fn avoided_peers_are_not_chosen()
    ensures gone { AvoidedAreGone }
    ensures others { OthersStay }
    ensures answered { AvoidIsAnswered }
    ensures until { AvoidedUntilHeard }
    ensures chosen { UnknownAreNotChosen }
    ensures stays { DirectoryStays }
{}
