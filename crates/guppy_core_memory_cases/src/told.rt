//! What a case tells on standard output. Takes no memory.
ghost use Rattle.std.specs.Iterator.{IsFinite};

use std::fmt::Display;

/// The line behind which requests for memory count.
pub fn begin(rt: &HostRuntime) {
    tell_line(rt, &"call");
}

pub fn tell_line<T: Display>(rt: &HostRuntime, line: &T) {
    let _told = println!(rt; "{line}");
}

/// Tells a word, or what else it is, on the line that is not ended yet.
pub fn tell<T: Display + Drop>(rt: &HostRuntime, word: T) {
    let _told = print!(rt; "{word} ");
}

/// How often a visitor or a callback was called so far.
pub fn tell_calls(rt: &HostRuntime, calls: usize) {
    let _told = println!(rt; "calls {calls}");
}

/// Tells the words, and what ends their line.
pub fn tell_all<T: Display + Drop, I: Iterator<Item = T> + Drop, E: Display>(
    rt: &HostRuntime,
    words: I,
    end: &E,
)
    requires can { I.can_next words }
    requires ends { IsFinite (I.remaining words) }
{
    for word in words {
        tell(rt, word);
    }
    tell_line(rt, end);
}
