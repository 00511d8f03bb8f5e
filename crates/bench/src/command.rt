// What a line of up to four words says: a command with its numbers, and the bytes that HEX spells.
use card::Protocol;
use identity::Identity;

// A command. The bytes are those that its HEX spells; the number of `Call` is the buffer's size.
#[derive(Clone, Copy)]
pub(crate) enum Command<'a> {
    Start(Protocol),
    StartAs(Protocol, Identity),
    Restart,
    Bytes(&'a [u8]),
    Call(usize, &'a [u8]),
    Host(Event),
    State,
    RegisterData(&'a [u8]),
    Hear(Protocol, &'a [u8]),
}

// What the host tells the card. A measured number is a word, a negative one in two's complement.
#[derive(Clone, Copy)]
pub(crate) enum Event {
    Tick(u32),
    Raise(u32),
    End(u32),
    Din1(bool),
    Parity,
    Frq(u16),
    Irms(u32),
    OpTime(u32),
}

// The bytes that HEX spells, which are put at the start of `bytes`.
fn spelt<'a>(hex: &[u8], bytes: &'a mut [u8]) -> Option<&'a [u8]> {
    let n = bench_words::spelt(hex, bytes)?;
    Some(bench_words::first(bytes, n))
}

// `restart`, `parity`, `state`
fn alone<'a>(name: &[u8]) -> Option<Command<'a>> {
    match name {
        b"restart" => Some(Command::Restart),
        b"parity" => Some(Command::Host(Event::Parity)),
        b"state" => Some(Command::State),
        _ => None,
    }
}

// `tick N`, `raise N`, `end N`, `optime N`: any number of 32 bits
fn counted(name: &[u8], number: &[u8]) -> Option<Event> {
    let n = bench_words::between(0, u32::MAX, number)?;
    match name {
        b"tick" => Some(Event::Tick(n)),
        b"raise" => Some(Event::Raise(n)),
        b"end" => Some(Event::End(n)),
        b"optime" => Some(Event::OpTime(n)),
        _ => None,
    }
}

// `din1 N`, N 0 or 1; `frq N`, N from -32768 to 32767; `irms N`, N from -2147483648 to 2147483647; and those of any number
fn told(name: &[u8], number: &[u8]) -> Option<Event> {
    match name {
        b"din1" => Some(Event::Din1(bench_words::between(0, 1, number)? == 1)),
        b"frq" => Some(Event::Frq(bench_words::between16(32768, 32767, number)?)),
        b"irms" => Some(Event::Irms(bench_words::between(2147483648, 2147483647, number)?)),
        _ => counted(name, number),
    }
}

// A name with one word after it: `start P`, `bytes HEX`, `regdata HEX`, `nreply HEX`, and what the host tells.
fn with_one<'a>(name: &[u8], word: &[u8], bytes: &'a mut [u8]) -> Option<Command<'a>> {
    match name {
        b"start" => Some(Command::Start(protocols::protocol_of(word)?)),
        b"bytes" => Some(Command::Bytes(spelt(word, bytes)?)),
        b"regdata" => Some(Command::RegisterData(spelt(word, bytes)?)),
        b"nreply" => Some(Command::Hear(Protocol::Nfo, spelt(word, bytes)?)),
        _ => Some(Command::Host(told(name, word)?)),
    }
}

// `call B HEX`
fn call<'a>(size: &[u8], word: &[u8], bytes: &'a mut [u8]) -> Option<Command<'a>> {
    let b = bench_words::between(0, u32::MAX, size)?;
    Some(Command::Call(b as usize, spelt(word, bytes)?))
}

// `mreply P HEX`
fn modbus_reply<'a>(protocol: &[u8], word: &[u8], bytes: &'a mut [u8]) -> Option<Command<'a>> {
    let reply = spelt(word, bytes)?;
    match protocol {
        b"rtu" => Some(Command::Hear(Protocol::Rtu, reply)),
        b"ascii" => Some(Command::Hear(Protocol::Ascii, reply)),
        _ => None,
    }
}

// A name with two words after it.
fn with_two<'a>(
    name: &[u8],
    first: &[u8],
    word: &[u8],
    bytes: &'a mut [u8],
) -> Option<Command<'a>> {
    match name {
        b"call" => call(first, word, bytes),
        b"mreply" => modbus_reply(first, word, bytes),
        _ => None,
    }
}

// `start P identity HEX`: HEX spells an identity
fn start_as<'a>(protocol: &[u8], hex: &[u8], bytes: &mut [u8]) -> Option<Command<'a>> {
    let protocol = protocols::protocol_of(protocol)?;
    let identity = Identity::try_from(spelt(hex, bytes)?).ok()?;
    Some(Command::StartAs(protocol, identity))
}

// A name with three words after it.
fn with_three<'a>(line: &[u8], bytes: &mut [u8]) -> Option<Command<'a>> {
    match (bench_words::word(line, 0), bench_words::word(line, 2)) {
        (b"start", b"identity") => start_as(
            bench_words::word(line, 1),
            bench_words::word(line, 3),
            bytes,
        ),
        _ => None,
    }
}

// The command that the line is. The bytes of its HEX are put at the start of `bytes`.
pub(crate) fn parse<'a>(line: &[u8], bytes: &'a mut [u8]) -> Option<Command<'a>> {
    match bench_words::count(line) {
        1 => alone(line),
        2 => with_one(
            bench_words::word(line, 0),
            bench_words::word(line, 1),
            bytes,
        ),
        3 => with_two(
            bench_words::word(line, 0),
            bench_words::word(line, 1),
            bench_words::word(line, 2),
            bytes,
        ),
        4 => with_three(line, bytes),
        _ => None,
    }
}
