// Which of two masters of a port stays in the choice, on the words of the store.
#![tactic(auto)]

ghost use Rattle.std.specs.Prelude.{◌≡◌, [], ◌∷◌, ◌≤◌, length, get_or};
ghost use Rattle.order.specs.Order.{is_less, lex};
ghost use Rattle.book.specs.Layout.{master_words, message_at};
ghost use Rattle.stays.specs.Words.{high_of, near_row, far_row, stays_at};

// The grandmaster of message k of a master.
fn grandmaster_at(master: &[u64], k: usize) -> u64
    requires { length master.now ≡ master_words }
    ensures { result ≡ (message_at master.now k).message.grandmaster_identity }
{
    let at = book::slot_at(master[2], k);
    master[at]
}

// Its priority 1, class, accuracy, variance and priority 2, as one number.
fn high_at(master: &[u64], k: usize) -> u64
    requires { length master.now ≡ master_words }
    ensures { result ≡ high_of (message_at master.now k).message }
{
    let at = book::slot_at(master[2], k);
    master[at + 5] / 256 / 256
}

// A row of two numbers is lower than another: the first that differs decides.
fn lower2(a: u64, b: u64, x: u64, y: u64) -> bool
    ensures { result ≡ is_less (lex (a ∷ b ∷ []) (x ∷ y ∷ [])) }
{
    a < x || (a == x && b < y)
}

// One grandmaster: the steps, then the sender, then the age.
fn stays_near(held: &[u64], next: &[u64]) -> bool
    requires held_len { (length held.now ≡ master_words) × (1 ≤ get_or held.now 3 0) }
    requires next_len { (length next.now ≡ master_words) × (1 ≤ get_or next.now 3 0) }
    ensures { result ≡ is_less (lex (near_row held.now) (near_row next.now)) }
{
    let i = (held[3] - 1) as usize;
    let j = (next[3] - 1) as usize;
    let ours = book::steps_at(held, i);
    let theirs = book::steps_at(next, j);
    if ours < theirs {
        return true;
    }
    if theirs < ours {
        return false;
    }
    let b = book::age_at(held, i);
    let y = book::age_at(next, j);
    lower2(held[0], b, next[0], y)
}

// Two grandmasters: the five numbers, then the identity.
fn stays_far(held: &[u64], next: &[u64]) -> bool
    requires held_len { (length held.now ≡ master_words) × (1 ≤ get_or held.now 3 0) }
    requires next_len { (length next.now ≡ master_words) × (1 ≤ get_or next.now 3 0) }
    ensures { result ≡ is_less (lex (far_row held.now) (far_row next.now)) }
{
    let i = (held[3] - 1) as usize;
    let j = (next[3] - 1) as usize;
    let a = high_at(held, i);
    let b = grandmaster_at(held, i);
    let x = high_at(next, j);
    let y = grandmaster_at(next, j);
    lower2(a, b, x, y)
}

// The newest message of the master held stays against that of the next.
pub fn stays(held: &[u64], next: &[u64]) -> bool
    requires held_len { (length held.now ≡ master_words) × (1 ≤ get_or held.now 3 0) }
    requires next_len { (length next.now ≡ master_words) × (1 ≤ get_or next.now 3 0) }
    ensures { result ≡ stays_at held.now next.now }
{
    let i = (held[3] - 1) as usize;
    let j = (next[3] - 1) as usize;
    let ours = grandmaster_at(held, i);
    let theirs = grandmaster_at(next, j);
    if ours == theirs {
        return stays_near(held, next);
    }
    stays_far(held, next)
}
