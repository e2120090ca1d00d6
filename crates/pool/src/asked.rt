// What a request's descriptors say, in order; their places are the words of a set, and are gone through a word at a time.
ghost use Rattle.std.specs.Prelude.{◌≡◌, false, [], ◌+◌, ◌-◌, ◌*◌, ◌≤◌, ◌<◌, ◌^◌, get_or, length};
ghost use Rattle.std.specs.Int.Bits.{bit_and};
ghost use Rattle.std.specs.Int.Count.{count_trailing_zeros};
ghost use Rattle.bitset.specs.Places.{set_places};
ghost use Rattle.pool.specs.Chains.{read_of, seen_from, view_of};
ghost use Rattle.pool.specs.Words.{AskWordsGood, WordGood, left_if, no_ask_words, seen_next, sees, word_places};

use crate::chain::{View, failed_with, is_short, moved_of, nothing_seen, retried_of, stage_with};
use crate::tokens::token_at;
use crate::transfer::requested;
use bitset::word::{drop_lowest, lowest};
use common::kinds::EndpointType;
use descriptor::qtd::QueueTransferDescriptor;
use token::qtd::QtdToken;

// The words of a set of places.
const WORDS: usize = 4;

// `stops`: its records are seen up to the first short one, and no further.
#[derive(Clone, Copy)]
pub struct AskWords {
    pub places: [u64; 4],
    pub kind: EndpointType,
    pub length: u64,
    pub limit: u32,
    pub stops: bool,
}

// What is seen so far, of how many records, and whether that was all.
#[derive(Clone, Copy)]
pub struct Folded {
    pub view: View,
    pub k: u32,
    pub ended: bool,
}

// Nothing is asked.
pub fn no_ask_words() -> AskWords
    ensures { result ≡ no_ask_words }
{
    AskWords {
        places: [0; 4],
        kind: EndpointType::Control,
        length: 0,
        limit: 0,
        stops: false,
    }
}

fn none_folded() -> Folded
    ensures { result ≡ record { view = view_of []; k = 0; ended = false } }
{
    Folded {
        view: nothing_seen(),
        k: 0,
        ended: false,
    }
}

// One more descriptor of a request is seen, by its token's word.
fn see_word(seen: Folded, ask: AskWords, word: u32) -> Folded
    requires { (seen.k < 256) × (ask.length < 2 ^ 32) × (ask.limit ≤ 16384) × (seen.view.moved ≤ seen.k * 2 ^ 32) × (seen.view.retried ≤ seen.k) }
    ensures { result ≡ seen_next seen ask word }
{
    let kind = ask.kind;
    let asked = requested(kind, ask.length, ask.limit, seen.k);
    let token = QtdToken(word);
    let view = View {
        stage: stage_with(seen.view.stage, token),
        retried: seen.view.retried + retried_of(token),
        failed: failed_with(seen.view.failed, token),
        moved: seen.view.moved + moved_of(asked, token),
    };
    Folded {
        view,
        k: seen.k + 1,
        ended: ask.stops & is_short(token),
    }
}

// What is to be seen of word j: nothing once it has ended.
fn word_at(ask: AskWords, j: usize, seen: Folded) -> u64
    requires { j < 4 }
    ensures { result ≡ left_if seen.ended (get_or ask.places j 0) }
{
    if seen.ended {
        return 0;
    }
    ask.places[j]
}

// What is left of a word after its lowest place.
fn left_after(seen: Folded, left: u64) -> u64
    ensures { result ≡ left_if seen.ended (bit_and left (left - 1)) }
{
    if seen.ended {
        return 0;
    }
    drop_lowest(left)
}

// The lowest place that is left of word j.
fn lowest_place(j: usize, left: u64) -> usize
    requires { j < 4 }
    ensures { result ≡ 64 * j + count_trailing_zeros 64 left }
{
    64 * j + lowest(left) as usize
}

// The records at the places of word j are seen.
pub fn fold_word(
    rows: &[QueueTransferDescriptor],
    ask: AskWords,
    j: usize,
    before: Folded,
) -> Folded
    requires { WordGood (length rows.now) ask j before }
    ensures { sees ask rows.now (word_places ask j) before result }
{
    let mut seen = before;
    let mut left = word_at(ask, j, before);
    while left != 0 {
        let place = lowest_place(j, left);
        let token = token_at(rows, place);
        seen = see_word(seen, ask, token);
        let rest = left_after(seen, left);
        left = rest;
    }
    seen
}

// One call of `fold_word`, not one for each word: so it is inlined, whatever its size.
pub fn fold_places(rows: &[QueueTransferDescriptor], ask: AskWords) -> View
    requires { AskWordsGood (length rows.now) ask }
    ensures { result ≡ view_of (read_of ask.stops (seen_from ask.kind ask.length ask.limit 0 (set_places ask.places) rows.now)) }
{
    let mut seen = none_folded();
    for j in 0..WORDS {
        seen = fold_word(rows, ask, j, seen);
    }
    seen.view
}
