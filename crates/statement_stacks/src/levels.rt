ghost use Rattle.std.specs.Prelude.{◌≡◌, ◌+◌, ◌<◌, ◌^◌, min, max, List, reverse};
ghost use Rattle.statement_stacks.specs.Levels.{side as height_beside, size_with, top_size as size_of, weight as more_for};

use statement_grammar::Frame;
use statement_operands::Operand;

/// How high the sides of what is open are in the whole tree, and how much higher an operand in it is; both 65 where
/// they are more.
#[derive(Clone, Copy, Debug, PartialEq, Eq)]
pub struct Size {
    pub floor: u32,
    pub depth: u32,
}

/// A frame, and the size of all that is open with it.
#[derive(Debug, Drop)]
pub struct Level {
    pub frame: Frame<Operand>,
    pub size: Size,
}

fn weight(frame: &Frame<Operand>) -> u32
    ensures { result ≡ more_for frame.now }
{
    match frame {
        Frame::Before(_) => 1,
        Frame::Behind(_, _) => 1,
        Frame::Low(_, _) => 2,
        Frame::High(_, _, _, _) => 2,
        Frame::Opened(_, _) => 0,
    }
}

fn greater(a: u32, b: u32) -> u32
    ensures { result ≡ max a b }
{
    if a < b { b } else { a }
}

fn side(frame: &Frame<Operand>) -> u32
    ensures { result ≡ height_beside frame.now }
{
    match frame {
        Frame::Before(_) => 0,
        Frame::Behind(left, _) => left.facts.height,
        Frame::Low(value, _) => value.facts.height,
        Frame::High(value, _, low, _) => greater(value.facts.height, low.facts.height),
        Frame::Opened(_, _) => 0,
    }
}

fn capped(n: u64) -> u32
    ensures { result ≡ min 65 n }
{
    if n > 65 { 65 } else { n as u32 }
}

fn floor_with(floor: u32, depth: u32, side: u32, weight: u32) -> u32
    requires { weight < 3 }
    ensures { result ≡ min 65 (max floor (depth + side + weight)) }
{
    let sum = depth as u64 + side as u64 + weight as u64;
    let floor = floor as u64;
    if floor < sum {
        capped(sum)
    } else {
        capped(floor)
    }
}

/// The size with one frame more.
pub fn size_more(frame: &Frame<Operand>, size: Size) -> Size
    ensures { result ≡ size_with frame.now size }
{
    let weight = weight(frame);
    Size {
        floor: floor_with(size.floor, size.depth, side(frame), weight),
        depth: capped(size.depth as u64 + weight as u64),
    }
}

/// The size of these levels, of which the innermost stands last.
pub fn size_of_all(levels: &[Level]) -> Size
    ensures { result ≡ size_of (reverse levels.now) }
{
    match levels.split_last() {
        None => Size { floor: 0, depth: 0 },
        Some((level, _)) => level.size,
    }
}
