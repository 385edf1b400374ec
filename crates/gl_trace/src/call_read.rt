//! What the words of a call are read as.
ghost use Rattle.std.specs.Prelude.{◌≡◌, MatchOption, Some, None};
ghost use Rattle.gl_base.specs.declared.irq.IrqDo.{IrqDo};
ghost use Rattle.gl_model.specs.declared.call.Call.{Call};
ghost use Rattle.gl_trace.specs.Fronts.{Fields, fields};
ghost use Rattle.gl_trace.specs.WordRead.{kind_of, last_of, name_word, path_word, place_of, poll_of, up_of};
ghost use Rattle.gl_trace.specs.CallRead.{call_of, n8, n32, n64, of_one, of_two, of_three, of_four};

use crate::fronts::Fields;
use crate::verb::Verb;
use crate::word_read::{
    kind_of, last_of, name_word, number8, number32, number64, path_word, place_of, poll_of, up_of,
};
use gl_base::{IrqDo, PinDo};
use gl_core::Call;

/// The call of a verb that is no command's, by its words.
pub(crate) fn call_of(verb: Verb, words: &Fields<'_>) -> Option<Call>
    ensures { result ≡ call_of verb (fields words.now.first.now words.now.second.now words.now.third.now words.now.fourth.now words.now.rest.now) }
{
    match verb {
        Verb::Probe => probe(words.first, words.second, words.third),
        Verb::Unplug => unplug(words.first, words.second),
        Verb::MakeDir => make_dir(words.first),
        Verb::RemoveDir => remove_dir(words.first),
        Verb::Write => write(words.first, words.second),
        Verb::Read => read(words.first),
        Verb::Live => live(words.first),
        Verb::Remove => remove(words.first, words.second),
        Verb::Tick => tick(words.first, words.second),
        Verb::Range => range(words.first, words.second, words.third, words.fourth),
        Verb::Hold => hold(words.first, words.second),
        Verb::Drop => release(words.first, words.second),
        Verb::Lock => irq(words.first, words.second, IrqDo::Lock),
        Verb::Unlock => irq(words.first, words.second, IrqDo::Unlock),
        Verb::Enable => irq(words.first, words.second, IrqDo::Enable),
        Verb::Disable => irq(words.first, words.second, IrqDo::Disable),
        Verb::Never => irq(words.first, words.second, IrqDo::Never),
        Verb::Pull => pull(words.first, words.second, words.third),
        Verb::Interrupt => interrupt(words.first, words.second, words.third),
        Verb::Level => level(words.first, words.second, false),
        Verb::PullOf => level(words.first, words.second, true),
        Verb::Open => open(words.first),
        Verb::Find => find(words.first, words.second),
        Verb::ReadLine => read_edges(words.first, words.second, words.third),
        Verb::ReadChip => read_info(words.first, words.second, words.third),
        Verb::PollLine => poll_line(words.first, words.second),
        Verb::PollChip => poll_chip(words.first, words.second),
        Verb::Close => close(words.first),
        Verb::Refused => refused(words.first, words.second),
        Verb::Ioctl | Verb::Ask | Verb::Tell => None,
    }
}

fn probe(first: &[u8], second: &[u8], third: &[u8]) -> Option<Call>
    ensures { result ≡ of_three (name_word first.now) (n32 second.now) (kind_of third.now) (λ label lines kind. Call.Probe label lines kind) }
{
    match name_word(first) {
        Some(label) => match number32(second) {
            Some(lines) => match kind_of(third) {
                Some(kind) => Some(Call::Probe { label, lines, kind }),
                None => None,
            },
            None => None,
        },
        None => None,
    }
}

fn unplug(first: &[u8], second: &[u8]) -> Option<Call>
    ensures { result ≡ of_two (n8 first.now) (last_of second.now) (λ place last. Call.Unplug place last) }
{
    match number8(first) {
        Some(place) => match last_of(second) {
            Some(last) => Some(Call::Unplug { place, last }),
            None => None,
        },
        None => None,
    }
}

fn make_dir(first: &[u8]) -> Option<Call>
    ensures { result ≡ of_one (path_word first.now) (λ path. Call.MakeDir path) }
{
    match path_word(first) {
        Some(path) => Some(Call::MakeDir { path }),
        None => None,
    }
}

fn remove_dir(first: &[u8]) -> Option<Call>
    ensures { result ≡ of_one (path_word first.now) (λ path. Call.RemoveDir path) }
{
    match path_word(first) {
        Some(path) => Some(Call::RemoveDir { path }),
        None => None,
    }
}

fn write(first: &[u8], second: &[u8]) -> Option<Call>
    ensures { result ≡ of_two (path_word first.now) (name_word second.now) (λ path value. Call.Write path value) }
{
    match path_word(first) {
        Some(path) => match name_word(second) {
            Some(value) => Some(Call::Write { path, value }),
            None => None,
        },
        None => None,
    }
}

fn read(first: &[u8]) -> Option<Call>
    ensures { result ≡ of_one (path_word first.now) (λ path. Call.Read path) }
{
    match path_word(first) {
        Some(path) => Some(Call::Read { path }),
        None => None,
    }
}

fn live(first: &[u8]) -> Option<Call>
    ensures { result ≡ of_one (name_word first.now) (λ device. Call.Live device) }
{
    match name_word(first) {
        Some(device) => Some(Call::Live { device }),
        None => None,
    }
}

fn remove(first: &[u8], second: &[u8]) -> Option<Call>
    ensures { result ≡ of_two (name_word first.now) (last_of second.now) (λ device last. Call.Remove device last) }
{
    match name_word(first) {
        Some(device) => match last_of(second) {
            Some(last) => Some(Call::Remove { device, last }),
            None => None,
        },
        None => None,
    }
}

fn tick(first: &[u8], second: &[u8]) -> Option<Call>
    ensures { result ≡ of_two (n64 first.now) (n64 second.now) (λ mono real. Call.Tick mono real) }
{
    match number64(first) {
        Some(mono) => match number64(second) {
            Some(real) => Some(Call::Tick { mono, real }),
            None => None,
        },
        None => None,
    }
}

fn range(first: &[u8], second: &[u8], third: &[u8], fourth: &[u8]) -> Option<Call>
    ensures { result ≡ of_four (n8 first.now) (n32 second.now) (n32 third.now) (n32 fourth.now) (λ place offset pin count. Call.Pin place (PinDo.Range offset pin count)) }
{
    match number8(first) {
        Some(place) => match number32(second) {
            Some(offset) => match number32(third) {
                Some(pin) => match number32(fourth) {
                    Some(count) => Some(Call::Pin {
                        place,
                        what: PinDo::Range { offset, pin, count },
                    }),
                    None => None,
                },
                None => None,
            },
            None => None,
        },
        None => None,
    }
}

fn hold(first: &[u8], second: &[u8]) -> Option<Call>
    ensures { result ≡ of_two (n8 first.now) (n32 second.now) (λ place pin. Call.Pin place (PinDo.Hold pin)) }
{
    match number8(first) {
        Some(place) => match number32(second) {
            Some(pin) => Some(Call::Pin {
                place,
                what: PinDo::Hold(pin),
            }),
            None => None,
        },
        None => None,
    }
}

fn release(first: &[u8], second: &[u8]) -> Option<Call>
    ensures { result ≡ of_two (n8 first.now) (n32 second.now) (λ place pin. Call.Pin place (PinDo.Release pin)) }
{
    match number8(first) {
        Some(place) => match number32(second) {
            Some(pin) => Some(Call::Pin {
                place,
                what: PinDo::Release(pin),
            }),
            None => None,
        },
        None => None,
    }
}

fn irq(first: &[u8], second: &[u8], what: IrqDo) -> Option<Call>
    ensures { result ≡ of_two (n8 first.now) (n32 second.now) (λ place offset. Call.Irq place offset what) }
{
    match number8(first) {
        Some(place) => match number32(second) {
            Some(offset) => Some(Call::Irq {
                place,
                offset,
                what,
            }),
            None => None,
        },
        None => None,
    }
}

fn pull(first: &[u8], second: &[u8], third: &[u8]) -> Option<Call>
    ensures { result ≡ of_three (n8 first.now) (n32 second.now) (up_of third.now) (λ place offset up. Call.Pull place offset up) }
{
    match number8(first) {
        Some(place) => match number32(second) {
            Some(offset) => match up_of(third) {
                Some(up) => Some(Call::Pull { place, offset, up }),
                None => None,
            },
            None => None,
        },
        None => None,
    }
}

fn interrupt(first: &[u8], second: &[u8], third: &[u8]) -> Option<Call>
    ensures { result ≡ of_three (n8 first.now) (n32 second.now) (up_of third.now) (λ place offset up. Call.Interrupt place offset up) }
{
    match number8(first) {
        Some(place) => match number32(second) {
            Some(offset) => match up_of(third) {
                Some(up) => Some(Call::Interrupt { place, offset, up }),
                None => None,
            },
            None => None,
        },
        None => None,
    }
}

fn level(first: &[u8], second: &[u8], pull: bool) -> Option<Call>
    ensures { result ≡ of_two (n8 first.now) (n32 second.now) (λ place offset. Call.Level place offset pull) }
{
    match number8(first) {
        Some(place) => match number32(second) {
            Some(offset) => Some(Call::Level {
                place,
                offset,
                pull,
            }),
            None => None,
        },
        None => None,
    }
}

fn open(first: &[u8]) -> Option<Call>
    ensures { result ≡ of_one (path_word first.now) (λ word. Call.OpenChip word) }
{
    match path_word(first) {
        Some(word) => Some(Call::OpenChip { word }),
        None => None,
    }
}

fn find(first: &[u8], second: &[u8]) -> Option<Call>
    ensures { result ≡ of_two (place_of first.now) (name_word second.now) (λ place name. Call.Find place name) }
{
    match place_of(first) {
        Some(place) => match name_word(second) {
            Some(name) => Some(Call::Find { place, name }),
            None => None,
        },
        None => None,
    }
}

fn read_edges(first: &[u8], second: &[u8], third: &[u8]) -> Option<Call>
    ensures { result ≡ of_three (n8 first.now) (n32 second.now) (n32 third.now) (λ place fd len. Call.ReadEdges place fd len) }
{
    match number8(first) {
        Some(place) => match number32(second) {
            Some(fd) => match number32(third) {
                Some(len) => Some(Call::ReadEdges { place, fd, len }),
                None => None,
            },
            None => None,
        },
        None => None,
    }
}

fn read_info(first: &[u8], second: &[u8], third: &[u8]) -> Option<Call>
    ensures { result ≡ of_three (n8 first.now) (n32 second.now) (n32 third.now) (λ place fd len. Call.ReadInfo place fd len) }
{
    match number8(first) {
        Some(place) => match number32(second) {
            Some(fd) => match number32(third) {
                Some(len) => Some(Call::ReadInfo { place, fd, len }),
                None => None,
            },
            None => None,
        },
        None => None,
    }
}

fn poll_line(first: &[u8], second: &[u8]) -> Option<Call>
    ensures { result ≡ of_two (n8 first.now) (n32 second.now) (λ place fd. Call.PollLine place fd) }
{
    match number8(first) {
        Some(place) => match number32(second) {
            Some(fd) => Some(Call::PollLine { place, fd }),
            None => None,
        },
        None => None,
    }
}

fn poll_chip(first: &[u8], second: &[u8]) -> Option<Call>
    ensures { result ≡ of_two (n8 first.now) (n32 second.now) (λ place fd. Call.PollChip place fd) }
{
    match number8(first) {
        Some(place) => match number32(second) {
            Some(fd) => Some(Call::PollChip { place, fd }),
            None => None,
        },
        None => None,
    }
}

fn close(first: &[u8]) -> Option<Call>
    ensures { result ≡ of_one (n32 first.now) (λ fd. Call.Close fd) }
{
    match number32(first) {
        Some(fd) => Some(Call::Close { fd }),
        None => None,
    }
}

fn refused(first: &[u8], second: &[u8]) -> Option<Call>
    ensures { result ≡ of_two (n8 first.now) (poll_of second.now) (λ place poll. Call.Refused place poll) }
{
    match number8(first) {
        Some(place) => match poll_of(second) {
            Some(poll) => Some(Call::Refused { place, poll }),
            None => None,
        },
        None => None,
    }
}
