//! What the definitions have to do with each other.
ghost use Rattle.block_map.specs.Maps.{BlocksAgree, RowsAgree};

/// Stops at the lines of blocks show what a record with these blocks shows, and above and below each line its blocks
/// there. It does nothing.
pub fn block_laws()
    ensures rows { RowsAgree }
    ensures blocks { BlocksAgree }
{}
