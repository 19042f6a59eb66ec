// How many cases a group has, and how many of them are wrong.

// Standard output, as the calls that write name it.
const STDOUT_FILENO: i32 = 1;

#[derive(Clone, Copy, Default)]
pub struct Tally {
    pub cases: u64,
    pub wrong: u64,
}

impl Tally {
    // One case more.
    pub fn with(self, right: bool) -> Tally {
        Tally {
            cases: self.cases.saturating_add(1),
            wrong: self.wrong.saturating_add(u64::from(!right)),
        }
    }

    // Writes the line of a group.
    pub fn report(self, name: &[u8]) {
        io::write_all(STDOUT_FILENO, name);
        io::write_all(STDOUT_FILENO, b": ");
        io::print_decimal(STDOUT_FILENO, self.cases);
        io::write_all(STDOUT_FILENO, b" cases, ");
        io::print_decimal(STDOUT_FILENO, self.wrong);
        io::write_all(STDOUT_FILENO, b" wrong\n");
    }
}

// Runs the cases of a group from 0 on, each of which says whether it is right, and writes the group's line.
pub fn run<F: Fn(u64) -> bool>(name: &[u8], cases: u64, right: F)
    requires { F.IsAlwaysCallable right }
{
    let mut tally = Tally::default();
    for n in 0..cases {
        tally = tally.with(right(n));
    }
    tally.report(name);
}
