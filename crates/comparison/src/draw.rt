// Calls drawn from a sequence: pairs, factors, and the mix of the calls.
ghost use Rattle.std.specs.Prelude.{◌≡◌, ◌^◌, ◌<◌, ◌≤◌, length};
ghost use Rattle.comparison.specs.Answers.{pair_of, Within};

use crate::call::Call;
use crate::sequence::Sequence;
use asking::pair::Pair;
use factors::factor::Factor;

/// The calls without what they are about, which is drawn once the name is.
#[derive(Clone, Copy)]
enum Name {
    Enter,
    Strike,
    Factor,
    Reach,
    Support,
    Need,
    Total,
}

// the calls as often as they come up: more lines are entered than struck, so that lines stand; names and no functions, since
// a table of functions would need one for each call, where `draw_call` has a line for each
const CALL_MIX: [Name; 15] = [
    Name::Enter,
    Name::Enter,
    Name::Enter,
    Name::Enter,
    Name::Strike,
    Name::Strike,
    Name::Strike,
    Name::Factor,
    Name::Reach,
    Name::Reach,
    Name::Support,
    Name::Support,
    Name::Need,
    Name::Total,
    Name::Total,
];

/// Where a factor comes from.
#[derive(Clone, Copy)]
enum Source {
    Zero,
    One,
    SmallCode,
    AnyCode,
}

// the sources as often as they come up: small factors are common, so that totals cancel; names and no functions, as above
const SOURCE_MIX: [Source; 8] = [
    Source::Zero,
    Source::One,
    Source::One,
    Source::One,
    Source::SmallCode,
    Source::SmallCode,
    Source::AnyCode,
    Source::AnyCode,
];

// the small codes are those below this
const SMALL_CODES: u64 = 8;

// one factor of so many is taken as its opposite
const OPPOSITES: u64 = 2;

// one line of so many is looked for at any pair
const FAR_LINES: u64 = 8;

// the other lines lead at most so many blocks on
const NEAR_BLOCKS: u64 = 6;

// The size goes beside the sequence: were both in one struct, each draw, which steps the sequence, would have to promise
// that the size stays.

/// One item of a mix. Between u64 and usize `TryFrom` would answer a Result to be opened; `as`, here and below, is proved to
/// lose nothing.
fn draw_item<T: Copy>(sequence: &mut Sequence, mix: &[T]) -> T
    requires { 0 < length mix.now }
{
    mix[sequence.below(mix.len() as u64) as usize]
}

/// The number of a block, or the first number that is none.
fn draw_block(sequence: &mut Sequence, size: u8) -> usize
    ensures { result ≤ size }
{
    sequence.below(u64::from(size) + 1) as usize
}

/// Any two numbers.
fn draw_pair(sequence: &mut Sequence, size: u8) -> Pair<usize>
    ensures { Within size result }
{
    Pair {
        upper: draw_block(sequence, size),
        lower: draw_block(sequence, size),
    }
}

/// Two numbers of which the lower is a few blocks on; after the last number comes the first, which closes circles.
fn draw_near_pair(sequence: &mut Sequence, size: u8) -> Pair<usize>
    ensures { Within size result }
{
    let upper = draw_block(sequence, size);
    let step = sequence.below(NEAR_BLOCKS) as usize + 1;
    let lower = (upper + step) % (usize::from(size) + 1);
    Pair { upper, lower }
}

/// Two numbers between which a line may well stand.
fn draw_line(sequence: &mut Sequence, size: u8) -> Pair<usize>
    ensures { Within size result }
{
    if sequence.below(FAR_LINES) == 0 {
        draw_pair(sequence, size)
    } else {
        draw_near_pair(sequence, size)
    }
}

/// The factor of a code, or zero where it is none.
fn decoded<F: Factor>(code: u64) -> F
    ensures { code < 2 ^ F.Factor.coding.width → result ≡ F.Factor.coding.factor code }
{
    F::decode(code).unwrap_or(F::zero())
}

/// A factor of any code: of as many leading bits as a code has.
fn draw_any_factor<F: Factor>(sequence: &mut Sequence) -> F {
    let unused_bits = u64::BITS.saturating_sub(F::code_width());
    decoded(sequence.next().wrapping_shr(unused_bits))
}

/// A factor, or its opposite.
fn draw_factor<F: Factor>(sequence: &mut Sequence) -> F {
    let factor = match draw_item(sequence, &SOURCE_MIX) {
        Source::Zero => F::zero(),
        Source::One => F::one(),
        Source::SmallCode => decoded(sequence.below(SMALL_CODES)),
        Source::AnyCode => draw_any_factor(sequence),
    };
    if sequence.below(OPPOSITES) == 0 {
        factor.opposite()
    } else {
        factor
    }
}

/// A call, to a book of this size: of its blocks, or of the first number that is none.
pub fn draw_call<F: Factor>(sequence: &mut Sequence, size: u8) -> Call<F>
    ensures { Within size (pair_of result) }
{
    match draw_item(sequence, &CALL_MIX) {
        Name::Enter => Call::Enter(draw_line(sequence, size), draw_factor(sequence)),
        Name::Strike => Call::Strike(draw_line(sequence, size)),
        Name::Factor => Call::Factor(draw_line(sequence, size)),
        Name::Reach => Call::Reach(draw_pair(sequence, size)),
        Name::Support => Call::Support(draw_pair(sequence, size)),
        Name::Need => Call::Need(draw_line(sequence, size)),
        Name::Total => Call::Total(draw_pair(sequence, size)),
    }
}
