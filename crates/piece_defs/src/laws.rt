//! Laws of pieces.
ghost use Rattle.piece_defs.specs.JoinedLaws.{JoinedLaw};
ghost use Rattle.piece_defs.specs.OnePieces.{OnePiecesLaw};
ghost use Rattle.piece_defs.specs.Put.{PutLaw};
ghost use Rattle.piece_defs.specs.ThroughLaws.{ThroughLaw};

/// Pieces that follow one on another and put each byte where it stands are the content's pieces when they are joined.
pub fn joined_pieces_are_the_content()
    ensures { JoinedLaw }
{}

/// A content has one list of pieces: they cover it in order, are as long as possible, and put each byte where it stands.
pub fn pieces_are_one()
    ensures { OnePiecesLaw }
{}

/// One more piece at the end, which grows the last one where it goes on, makes the pieces of the longer content.
pub fn one_more_piece_is_put()
    ensures { PutLaw }
{}

/// The pieces of a content give each byte the place where it stands, and their bytes are the content's.
pub fn pieces_have_the_bytes()
    ensures { ThroughLaw }
{}
