//! Whole pieces, read from and written to something outside.
ghost use Rattle.std.specs.Prelude.{◌≡◌, ◌<◌, ◌≤◌, ◌↔◌, ◌++◌, [], length, take, IfOk, OnErr, IsErr, IfSome, Some};
ghost use Rattle.qe_base.specs.Causes.{HasCause};
ghost use Rattle.qe_base.specs.Outside.{OnlyRead, TakesTurn};
ghost use Rattle.qe_node.specs.Port.{WritesAll};

use qe_base::{Failed, Sink, Source};

/// Reads at most so many bytes into the front of a piece.
pub fn read_front<P: Source + Sink>(
    port: &mut P,
    piece: &mut [u8],
    most: usize,
) -> Result<usize, Failed>
    requires { most ≤ length piece.old }
    ensures within { IfOk result (λ count. count ≤ most) }
    ensures bytes { IfOk result (λ count. IfSome (P.seen port.new).left (λ rest. (P.seen port.old).left ≡ Some (take count piece.new ++ rest))) }
    ensures end { IfOk result (λ count. 0 < most → IfSome (P.seen port.old).left (λ left. (count ≡ 0) ↔ (left ≡ []))) }
    ensures failed { OnErr result ((P.seen port.new).left ≡ (P.seen port.old).left) }
    ensures turn { TakesTurn (P.seen port.old) (P.seen port.new) }
    ensures cause { HasCause (P.seen port.old).reads (P.seen port.new).reads (IsErr result) }
    ensures others { OnlyRead (P.seen port.old) (P.seen port.new) }
{
    let (front, _) = piece.split_at_mut(most);
    port.read(front)
}

/// Writes the whole piece, or its front up to a fault.
pub fn write_all<P: Source + Sink>(port: &mut P, piece: &[u8]) -> Result<(), Failed>
    ensures { WritesAll (P.seen port.old) (P.seen port.new) piece.now result }
{
    let mut rest = piece;
    'pieces: while !rest.is_empty() {
        let count = port.write(rest)?;
        let (_, later) = rest.split_at(count);
        rest = later;
    }
    Ok(())
}
