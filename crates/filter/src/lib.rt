// The filter that a frame passes: the filters of a bank, their numbers, and the search.
// A word of `Filters` has a bit for each bank, `banks` has R1 and R2 of each bank in turn, w is the frame's identifier word.
#![tactic(auto)]

ghost use Rattle.std.specs.Prelude.{◌≡◌, ℕ, ◌+◌, ◌<◌, ◌≤◌, ◌==◌};
ghost use Rattle.model.specs.declared.FilterClass.TheVariants.{List32, Mask32, List16, Mask16};
ghost use Rattle.base.specs.Base as base;
ghost use Rattle.model.specs.Banks as banks;
ghost use Rattle.model.specs.Banks.{first_word, second_word, short_word};
ghost use Rattle.model.specs.Search as filtering;
ghost use Rattle.filter.specs.Places as places;

use bits::pick;
use model::{Bank, Fifo, FilterClass, FilterNumber, Filters};

// ---- the words of a bank

// R1 and R2.
fn words_of(banks: &[u32; 28], b: Bank) -> (u32, u32)
    requires { b.0 < 14 }
    ensures { result ≡ (first_word banks.now b, second_word banks.now b) }
{
    let place = 2 * b.0 as usize;
    (banks[place], banks[place + 1])
}

// ---- the filters of a bank

// How many filters a bank gives.
fn width(k: FilterClass) -> u32
    ensures { result ≡ banks.width k }
{
    match k {
        FilterClass::List32 => 2,
        FilterClass::Mask32 => 1,
        FilterClass::List16 => 4,
        FilterClass::Mask16 => 2,
    }
}

// The word that 16-bit filters look at.
fn short_word(w: u32) -> u32
    ensures { result ≡ banks.short_word w }
{
    (w >> 21) * 32 + (w >> 1) % 2 * 16 + (w >> 2) % 2 * 8 + (w >> 18) % 8
}

fn takes_under(x: u32, m: u32, w: u32) -> bool
    ensures { result ≡ banks.takes (banks.under x m) w }
{
    w & m == x & m
}

// Whether filter j of a bank of class k with the words a and b takes a frame; `short` is the frame's 16-bit word.
// Numbers one by one, here and in the search: a struct of the two words is packed, one of all stays in memory (docs/PERFORMANCE.md).
fn takes(k: FilterClass, a: u32, b: u32, j: u32, w: u32, short: u32) -> bool
    requires { short ≡ short_word w }
    ensures { result ≡ banks.matches k a b j w }
{
    match k {
        FilterClass::List32 => match j {
            0 => w == a,
            1 => w == b,
            _ => false,
        },
        FilterClass::Mask32 => match j {
            0 => takes_under(a, b, w),
            _ => false,
        },
        FilterClass::List16 => match j {
            0 => short == a % 65536,
            1 => short == a / 65536,
            2 => short == b % 65536,
            3 => short == b / 65536,
            _ => false,
        },
        FilterClass::Mask16 => match j {
            0 => takes_under(a % 65536, a / 65536, short),
            1 => takes_under(b % 65536, b / 65536, short),
            _ => false,
        },
    }
}

// ---- their numbers in a FIFO

// The word with a 1 for each bank of the FIFO.
fn own(f: Fifo, g: Filters) -> u32
    ensures { result ≡ banks.own f g }
{
    match f {
        Fifo::F0 => !g.assignment,
        Fifo::F1 => g.assignment,
    }
}

// Each lower bank of the FIFO, active or not, takes one number, one more if it is a list, and as many again
// if it has 16 bits: the four words of such banks side by side, and one count of their ones.
fn first_number_of(g: Filters, f: Fifo, b: Bank) -> FilterNumber
    requires { b.0 ≤ 14 }
    ensures { (result ≡ banks.first_number 14 g f b) × (result.0 ≤ 56) }
{
    let mine = own(f, g) & ((1 << b.0) - 1);
    let lists = mine & g.mode;
    let halves = !g.scale;
    let sides = (mine as u64)
        + (lists as u64) * 0x4000
        + ((mine & halves) as u64) * 0x10000000
        + ((lists & halves) as u64) * 0x40000000000;
    let low = sides.count_ones() as u8;
    FilterNumber(low)
}

// The number that the first filter of a bank has in a FIFO.
// `pick` here and in `lower`: no branch, and the proof has the choice as one value (bits).
pub fn first_number(g: Filters, f: Fifo, b: Bank) -> FilterNumber
    ensures { result ≡ banks.first_number 14 g f b }
{
    let i = pick(b.0 < 14, b.0, 14);
    first_number_of(g, f, Bank(i))
}

// ---- one comparison

// Whether a filter takes a frame, and how many filters have been compared with this one.
#[derive(Clone, Copy)]
struct Comparison {
    takes: bool,
    compared: u32,
}

// The search compares through this function alone, so that no comparison goes uncounted.
// `short` goes along with w: a struct of both is packed, and worked out for each filter it would cost the search (docs/PERFORMANCE.md).
fn compare(k: FilterClass, a: u32, b: u32, j: u32, w: u32, short: u32, compared: u32) -> Comparison
    requires { (short ≡ short_word w) × (compared < 56) }
    ensures { (result.takes ≡ banks.matches k a b j w) × (result.compared ≡ compared + 1) }
{
    Comparison {
        takes: takes(k, a, b, j, w, short),
        compared: compared + 1,
    }
}

// ---- the search of one class in some banks

// The word with a 1 for each bank of the class.
fn of_class(g: Filters, k: FilterClass) -> u32
    ensures { (b : Bank) → b.0 < 32 → base.bit b.0 result ≡ (banks.rank (banks.class_of g b) == banks.rank k) }
{
    match k {
        FilterClass::List32 => g.scale & g.mode,
        FilterClass::Mask32 => g.scale & !g.mode,
        FilterClass::List16 => !g.scale & g.mode,
        FilterClass::Mask16 => !g.scale & !g.mode,
    }
}

// A place in the search: four times the bank's number and the filter's place in the bank; 128 stands for none.
// A number and no Option: an enum of eight bytes is packed into one integer wherever it is handed on (docs/PERFORMANCE.md, "What decides").
#[derive(Clone, Copy)]
struct Place(u32);

// Where the first match stands, and how many filters were compared: those up to it, or all where there is none.
#[derive(Clone, Copy)]
struct FirstMatch {
    place: Place,
    compared: u32,
}

// 128 is no place (Place), as the definition `no_match` has it.
#[tactic(auto, unfolding(crate::specs::Places::no_match))]
fn no_match(compared: u32) -> FirstMatch
    ensures { result ≡ places.no_match compared }
{
    FirstMatch {
        place: Place(128),
        compared,
    }
}

// Where nothing is left out: a limit and no Option, for one comparison before each bank.
const ALL: u32 = u32::MAX;

// The first match in the banks of the word `part`, but for those with more than `most` filters before them. The lowest bank that is
// left comes next.
// By hand: the ones of a word have no iterator, and `most` is asked before each bank. j is the filter's place in its bank.
fn first_match(
    banks: &[u32; 28],
    w: u32,
    short: u32,
    k: FilterClass,
    part: u32,
    most: u32,
) -> FirstMatch
    requires { short ≡ short_word w }
    ensures { places.FirstIn banks.now w k part most result }
{
    let m = width(k);
    let mut compared: u32 = 0;
    let mut left = part;
    'search: loop {
        let i = left.trailing_zeros();
        if 14 <= i {
            break no_match(compared);
        }
        if most < compared {
            break no_match(compared);
        }
        let bank = Bank(i);
        let (a, b) = words_of(banks, bank);
        for j in 0..m {
            let c = compare(k, a, b, j, w, short, compared);
            if c.takes {
                break 'search FirstMatch {
                    place: Place(4 * i + j),
                    compared: c.compared,
                };
            }
            compared = c.compared;
        }
        left &= !(1 << i);
    }
}

// ---- the first match of a class, in FIFO 0 if it has one

// The first match in FIFO 0; where it has none, the first in FIFO 1. `rest` is the word of the banks of FIFO 1 that are left to
// search.
#[derive(Clone, Copy)]
struct Leading {
    f0: Place,
    f1: Place,
    rest: u32,
    compared: u32,
}

// Numbers as in Place and parameters as in `takes`: what is handed on as a struct is packed or stays in memory.
fn leading_of(g: Filters, banks: &[u32; 28], w: u32, short: u32, k: FilterClass) -> Leading
    requires { short ≡ short_word w }
    ensures { places.Leads g banks.now w k result }
{
    let part = g.activation & of_class(g, k);
    if part == 0 {
        return Leading {
            f0: Place(128),
            f1: Place(128),
            rest: 0,
            compared: 0,
        };
    }
    let rest = part & g.assignment;
    let x = first_match(banks, w, short, k, part & !g.assignment, ALL);
    let f0 = x.place;
    if f0.0 < 128 {
        return Leading {
            f0,
            f1: Place(128),
            rest,
            compared: x.compared,
        };
    }
    let y = first_match(banks, w, short, k, rest, ALL);
    Leading {
        f0: Place(128),
        f1: y.place,
        rest: 0,
        compared: x.compared + y.compared,
    }
}

// By number, as Place.
#[tactic(auto, unfolding(crate::specs::Places::any_place))]
fn any_place(p: Leading) -> bool
    ensures { result ≡ places.any_place p }
{
    (p.f0.0 < 128) | (p.f1.0 < 128)
}

// ---- the class that wins

// The class that was searched last, and the comparisons of all so far.
#[derive(Clone, Copy)]
struct BestClass {
    class: FilterClass,
    leading: Leading,
}

// A class with the comparisons of those before it.
#[tactic(auto, unfolding(crate::specs::Places::counted))]
fn counted(p: Leading, compared: u32) -> Leading
    requires { (p.compared ≤ 112) × (compared ≤ 336) }
    ensures { result ≡ places.counted p compared }
{
    Leading {
        compared: p.compared + compared,
        ..p
    }
}

// The first class that has a match wins, 32-bit before 16, list before mask.
fn best_class(g: Filters, banks: &[u32; 28], w: u32, short: u32) -> BestClass
    requires { short ≡ short_word w }
    ensures { places.Best g banks.now w result }
{
    let a = leading_of(g, banks, w, short, FilterClass::List32);
    if any_place(a) {
        return BestClass {
            class: FilterClass::List32,
            leading: a,
        };
    }
    let b = counted(
        leading_of(g, banks, w, short, FilterClass::Mask32),
        a.compared,
    );
    if any_place(b) {
        return BestClass {
            class: FilterClass::Mask32,
            leading: b,
        };
    }
    let c = counted(
        leading_of(g, banks, w, short, FilterClass::List16),
        b.compared,
    );
    if any_place(c) {
        return BestClass {
            class: FilterClass::List16,
            leading: c,
        };
    }
    let d = counted(
        leading_of(g, banks, w, short, FilterClass::Mask16),
        c.compared,
    );
    BestClass {
        class: FilterClass::Mask16,
        leading: d,
    }
}

// ---- FIFO 1 after FIFO 0's match

// The number of the filter at a place, 255 for none.
// 255 loses against every number, so that `lower` needs no case for none.
#[tactic(auto, unfolding(crate::specs::Places::number_at))]
fn number_at(g: Filters, f: Fifo, p: Place) -> u32
    requires { places.Within p }
    ensures { result ≡ places.number_at g f p }
{
    if 128 <= p.0 {
        return 255;
    }
    let first = first_number_of(g, f, Bank(p.0 / 4));
    first.0 as u32 + p.0 % 4
}

// How many numbers a bank takes: one, twice as many if it is a list, twice as many again if it has 16 bits.
fn width_at(g: Filters, b: Bank) -> u32
    requires { b.0 < 14 }
    ensures { result ≡ banks.width (banks.class_of g b) }
{
    let list = (g.mode >> b.0) % 2;
    let half = 1 - (g.scale >> b.0) % 2;
    1 << (list + half)
}

// Of the banks of FIFO 1 in the word `part`, those whose first filter number is below n: the others can't win against number n of
// FIFO 0. No bank has more than four filters, so bank i with 4 * i < n needs no look. Where all banks of FIFO 1 are searched they are
// given back whole: the first number of each is then how many filters come before it, and the search stops by its own count.
// By hand, as in `first_match`: the ones of a word have no iterator.
fn can_win(g: Filters, n: u32, part: u32) -> u32
    requires { n ≤ 56 }
    ensures { places.CanWin g n part result }
{
    let sure = (n + 3) / 4;
    if part >> sure == 0 {
        return part;
    }
    if (g.assignment & !part == 0) & (n != 0) {
        return part;
    }
    let mut left = g.assignment;
    let mut number: u32 = 0;
    loop {
        let i = left.trailing_zeros();
        if (14 <= i) | (n <= number) {
            break part & !left;
        }
        number += width_at(g, Bank(i));
        left &= !(1 << i);
    }
}

// A function for each class, so that the compiler makes a loop for each: a class that is looked up in the loop costs more than the
// comparisons. One function that is inlined where it is called takes 701 instructions a frame, where these take 535
// (docs/PERFORMANCE.md).
fn list32_match(banks: &[u32; 28], w: u32, short: u32, part: u32, most: u32) -> FirstMatch
    requires { short ≡ short_word w }
    ensures { places.FirstIn banks.now w List32 part most result }
{
    first_match(banks, w, short, FilterClass::List32, part, most)
}

fn mask32_match(banks: &[u32; 28], w: u32, short: u32, part: u32, most: u32) -> FirstMatch
    requires { short ≡ short_word w }
    ensures { places.FirstIn banks.now w Mask32 part most result }
{
    first_match(banks, w, short, FilterClass::Mask32, part, most)
}

fn list16_match(banks: &[u32; 28], w: u32, short: u32, part: u32, most: u32) -> FirstMatch
    requires { short ≡ short_word w }
    ensures { places.FirstIn banks.now w List16 part most result }
{
    first_match(banks, w, short, FilterClass::List16, part, most)
}

fn mask16_match(banks: &[u32; 28], w: u32, short: u32, part: u32, most: u32) -> FirstMatch
    requires { short ≡ short_word w }
    ensures { places.FirstIn banks.now w Mask16 part most result }
{
    first_match(banks, w, short, FilterClass::Mask16, part, most)
}

fn match_of_class(
    banks: &[u32; 28],
    w: u32,
    short: u32,
    k: FilterClass,
    part: u32,
    most: u32,
) -> FirstMatch
    requires { short ≡ short_word w }
    ensures { places.FirstIn banks.now w k part most result }
{
    match k {
        FilterClass::List32 => list32_match(banks, w, short, part, most),
        FilterClass::Mask32 => mask32_match(banks, w, short, part, most),
        FilterClass::List16 => list16_match(banks, w, short, part, most),
        FilterClass::Mask16 => mask16_match(banks, w, short, part, most),
    }
}

// ---- the winner

// Twice the filter's number, and one more in FIFO 1, so that the lower filter number wins, and FIFO 0 where they are equal;
// 510 where no filter matches.
// A number and no Option: docs/READING.md names `winner` as one, and the lower number wins by one comparison; `acceptance` gives the Option.
#[derive(Clone, Copy)]
pub struct WinningFilter(pub u32);

// The winner, and how many filters were compared to find it.
#[derive(Clone, Copy)]
pub struct SearchResult {
    pub winner: WinningFilter,
    pub compared: u32,
}

// The winner by the numbers of the first matches in FIFO 0 and in FIFO 1, 255 for none.
fn lower(n0: u32, n1: u32) -> WinningFilter
    requires { (n0 ≤ 255) × (n1 ≤ 255) }
    ensures { result ≡ places.lower n0 n1 }
{
    let x = 2 * n0;
    let y = 2 * n1 + 1;
    WinningFilter(pick(x < y, x, y))
}

// FIFO 0 has a match: the banks of FIFO 1 that can still win are searched.
fn after_fifo0(g: Filters, banks: &[u32; 28], w: u32, short: u32, b: BestClass) -> SearchResult
    requires { (short ≡ short_word w) × (places.Best g banks.now w b × (b.leading.f0.0 < 128)) }
    ensures { result ≡ places.result_of g banks.now w }
{
    let p = b.leading;
    let k = b.class;
    let n0 = number_at(g, Fifo::F0, p.f0);
    let x = 2 * n0;
    let alone = SearchResult {
        winner: WinningFilter(x),
        compared: p.compared,
    };
    let rest = p.rest;
    if rest == 0 {
        return alone;
    }
    let part = can_win(g, n0, rest);
    if part == 0 {
        return alone;
    }
    let most = n0.wrapping_sub(1);
    let y = match_of_class(banks, w, short, k, part, most);
    let n1 = number_at(g, Fifo::F1, y.place);
    SearchResult {
        winner: lower(n0, n1),
        compared: p.compared + y.compared,
    }
}

// The whole search.
// 510 where no bank is active: by the number, as `winner`.
pub fn search(
    mode: u32,
    scale: u32,
    assignment: u32,
    activation: u32,
    banks: &[u32; 28],
    w: u32,
) -> SearchResult
    ensures { result ≡ places.result_of (places.filters_of mode scale assignment activation) banks.now w }
{
    if activation == 0 {
        return SearchResult {
            winner: WinningFilter(510),
            compared: 0,
        };
    }
    let g = Filters {
        mode,
        scale,
        assignment,
        activation,
        finit: false,
    };
    let short = short_word(w);
    let b = best_class(g, banks, w, short);
    let p = b.leading;
    if p.f0.0 < 128 {
        return after_fifo0(g, banks, w, short, b);
    }
    let n1 = number_at(g, Fifo::F1, p.f1);
    SearchResult {
        winner: lower(255, n1),
        compared: p.compared,
    }
}

// The winner alone, which is all that a step needs. Numbers, and not the filters' struct: this function stays a call, and what it
// is lent stays in memory.
pub fn winner(
    mode: u32,
    scale: u32,
    assignment: u32,
    activation: u32,
    banks: &[u32; 28],
    w: u32,
) -> WinningFilter
    ensures { result ≡ places.winner_of (filtering.acceptance 14 (places.filters_of mode scale assignment activation) banks.now w) }
{
    search(mode, scale, assignment, activation, banks, w).winner
}

// A function and no From: its definition stands in specs/Places.antt, and the number is the winner's (WinningFilter).
#[tactic(auto, unfolding(crate::specs::Places::accepted_by))]
pub fn accepted_by(x: WinningFilter) -> Option<(Fifo, FilterNumber)>
    ensures { result ≡ places.accepted_by x }
{
    if 510 <= x.0 {
        return None;
    }
    let low = (x.0 / 2) as u8;
    if x.0 % 2 == 0 {
        return Some((Fifo::F0, FilterNumber(low)));
    }
    Some((Fifo::F1, FilterNumber(low)))
}

// The FIFO that a frame goes to, and the filter that it passes.
pub fn acceptance(g: Filters, banks: &[u32; 28], w: u32) -> Option<(Fifo, FilterNumber)>
    ensures { result ≡ filtering.acceptance 14 g banks.now w }
{
    accepted_by(winner(g.mode, g.scale, g.assignment, g.activation, banks, w))
}
