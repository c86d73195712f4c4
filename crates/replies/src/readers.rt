// What the check, an event and the search for a name give, a line for each.
ghost use Rattle.std.specs.Prelude.{◌<◌, ◌^◌};

use crate::put;
use console::{number_at, print_bytes, word_at};
use events::Event;
use rows::Refusal;
use text::Context;
use trace::{Name, Sound, ThreadKind};
use words::Order;

// A dump, and a name file where one is given.
#[derive(Clone, Copy)]
pub(crate) struct Source<'a> {
    pub dump: &'a [u8],
    pub names: Option<&'a [u8]>,
}

impl<'a> Source<'a> {
    pub(crate) fn alone(dump: &'a [u8]) -> Source<'a> {
        Source { dump, names: None }
    }

    pub(crate) fn with(dump: &'a [u8], names: &'a [u8]) -> Source<'a> {
        Source {
            dump,
            names: Some(names),
        }
    }
}

// A refusal, or the header's fields and the event count.
pub(crate) fn print_verdict(rt: &HostRuntime, checked: Result<Sound, Refusal>) {
    match checked {
        Err(refusal) => put!(rt; "{refusal}\n"),
        Ok(Sound { header, events }) => {
            let order = match header.order {
                Order::Big => "big",
                Order::Little => "little",
            };
            put!(rt; "{order} {} {} {} {} {}", header.id, header.mask, header.base, header.registry_start, header.name_size);
            put!(rt; " {} {} {} {} {events}\n", header.registry_end, header.buffer_start, header.buffer_end, header.current);
        }
    }
}

pub(crate) fn print_checked(rt: &HostRuntime, dump: &[u8]) {
    print_verdict(rt, dump::check(dump));
}

fn print_in<const N: usize>(rt: &HostRuntime, name: Option<&[u8]>)
    requires { N < 2 ^ 32 }
{
    let mut text = [0u8; N];
    let length = names::put_name(&mut text, name);
    if let Some(text) = text.get(..length) {
        print_bytes(rt, text);
    }
}

// A name's JSON text. Few names have more than 64 bytes, and filling much space takes time.
// Six bytes for each of the 65,528 that a name of a file can have, and two more, are the longest.
fn print_json(rt: &HostRuntime, name: Option<&[u8]>) {
    if name.is_some_and(|bytes| bytes.len() > 64) {
        print_in::<393170>(rt, name);
    } else {
        print_in::<512>(rt, name);
    }
}

fn kind_of(name: Name) -> &'static str {
    match name {
        Name::Named {
            kind: ThreadKind::Live,
            ..
        } => "live",
        Name::Named {
            kind: ThreadKind::Gone,
            ..
        } => "gone",
        Name::Filed { .. } => "filed",
    }
}

// A name's text, and where there is one, its kind.
fn print_name(rt: &HostRuntime, source: Source<'_>, name: Option<Name>) {
    let part = finder::name_part(source.dump, source.names, name);
    print_json(rt, name.is_some().then_some(part));
    if let Some(name) = name {
        put!(rt; " {}", kind_of(name));
    }
}

// The slot's words, the ticks, the context and the name; with a name file its own name too.
fn print_event(rt: &HostRuntime, source: Source<'_>, event: Event) {
    let Event {
        slot,
        ticks,
        by,
        name,
        title,
    } = event;
    let context = match by {
        Context::Init => "init",
        Context::Isr => "isr",
        Context::Thread => "thread",
    };
    put!(rt; "{} {} {} {}", slot.pointer, slot.field, slot.id, slot.stamp);
    put!(rt; " {} {} {} {} {ticks} {context} ", slot.first, slot.second, slot.third, slot.fourth);
    print_name(rt, source, name);
    if source.names.is_some() {
        put!(rt; " ");
        print_name(rt, source, title);
    }
}

// The event at a position (64 bits): a refusal, or the event.
pub(crate) fn print_shown(rt: &HostRuntime, source: Source<'_>, arguments: &[u8]) {
    let position = number_at(arguments, 0, 4) as usize;
    match walk::event(source.dump, source.names, position) {
        Err(refusal) => put!(rt; "{refusal}"),
        Ok(event) => print_event(rt, source, event),
    }
    put!(rt; "\n");
}

// What finding the name for a pointer gives, the length of the part that is handed back, and its place in the dump or in the name file.
pub(crate) fn print_found(rt: &HostRuntime, source: Source<'_>, arguments: &[u8]) {
    let found = finder::find_name(source.dump, source.names, word_at(arguments, 0));
    let size = finder::found_part(source.dump, source.names, found).len();
    match found {
        Err(refusal) => put!(rt; "{refusal} {size}"),
        Ok(name) => {
            print_name(rt, source, name);
            put!(rt; " {size}");
            if let Some(Name::Named { at, .. } | Name::Filed { at, .. }) = name {
                put!(rt; " {at}");
            }
        }
    }
    put!(rt; "\n");
}
