// A fresh start: when it is taken, and the words of a book that holds nothing yet.
#![tactic(auto)]

ghost use Rattle.std.specs.Prelude.{◌≡◌, ◌≤◌, length, get_or};
ghost use Rattle.history.specs.Rules.{interval_right};
ghost use Rattle.history.specs.Sound.{startable};
ghost use Rattle.book.specs.Layout.{store_words};
ghost use Rattle.fresh.specs.Fresh.{site_with, rule_word, head_word, fresh_word, begun};

// An interval is 1 to 2^60 - 1 units.
fn interval_right(interval: u64) -> bool
    ensures { result ≡ interval_right interval }
{
    1 <= interval && interval < 0x1000_0000_0000_0000
}

// Whether a fresh start is taken: 1 to 8 intervals, each in range, and at most 16 acceptable masters.
pub fn startable(listed: &[u64], intervals: &[u64]) -> bool
    ensures { result ≡ startable listed.now intervals.now }
{
    if intervals.is_empty() || book::PORTS < intervals.len() || book::LISTED < listed.len() {
        return false;
    }
    intervals.iter().all(|interval| interval_right(*interval))
}

// A word of a list, 0 where it has none.
fn word_or_zero(list: &[u64], i: usize) -> u64
    ensures { result ≡ get_or list.now i 0 }
{
    if i < list.len() {
        return list[i];
    }
    0
}

// Word w of a book that holds nothing yet.
fn fresh_word(own: u64, any: bool, listed: &[u64], intervals: &[u64], w: usize) -> u64
    ensures { result ≡ fresh_word (site_with own any listed.now) intervals.now w }
{
    if w < book::HEAD_WORDS {
        return head_word(own, any, listed, intervals.len(), w);
    }
    let at = w - book::HEAD_WORDS;
    if at % book::PORT_WORDS == 0 {
        return word_or_zero(intervals, at / book::PORT_WORDS);
    }
    0
}

// Word w of the head.
fn head_word(own: u64, any: bool, listed: &[u64], ports: usize, w: usize) -> u64
    ensures { result ≡ head_word (site_with own any listed.now) ports w }
{
    match w {
        0 => ports as u64,
        1 => own,
        2 => rule_word(any),
        3 => listed.len() as u64,
        _ => word_or_zero(listed, w - 4),
    }
}

// 0 where any master is accepted, 1 where those listed are.
fn rule_word(any: bool) -> u64
    ensures { result ≡ rule_word any }
{
    if any {
        return 0;
    }
    1
}

// Writes the whole book, and nothing past it.
pub fn begin(store: &mut [u64], own: u64, any: bool, listed: &[u64], intervals: &[u64])
    requires { store_words ≤ length store.old }
    ensures { store.new ≡ begun (site_with own any listed.now) intervals.now store.old }
{
    for w in 0..book::STORE_WORDS {
        store[w] = fresh_word(own, any, listed, intervals, w);
    }
}
