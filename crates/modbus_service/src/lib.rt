// A data unit of Modbus, served by the plant, for RTU and ASCII alike: the order of refusals, what is done, and what is replied.
//
// `serve` takes a unit and the address before it, and is lent the plant and the port; the reply that it hands back is for the writer of the frame or of the message.
#![tactic(auto)]

ghost use Rattle.std.specs.Prelude.{◌≡◌};
ghost use Rattle.base.specs.Choice.{both};
ghost use Rattle.modbus_service.specs.Serve.{to_all, reaches_us, reading, part_task, task_of, done};
ghost use Rattle.modbus_service.specs.Reply.{head_of, exception_of, registers_told, replied_by, exchanged_in, exchanged};

use answers::{Answer, Refusal};
use drive::{Plant, STATION};
use identity::Part;
use modbus::Request;
use port::Numbers;
use table::{Register, Row};

// What a unit asks of the plant: a row is to tell its word, or to hold a value; or nothing, and this is to be said. An enum and no closure: the definition `task_of` names it, and a function
// may hand out no closure that is boxed.
#[derive(Clone, Copy)]
enum Task {
    Tell(Row),
    Write(Row, u32),
    Say(Answer),
}

// What a reply repeats of its request: the function, the register, and the word of a 06 or the count.
#[derive(Clone, Copy)]
struct Head {
    function: u8,
    register: Register,
    number: u16,
}

// What a unit came to, and the data unit that is replied, if any.
#[derive(Clone, Copy)]
pub struct Exchange {
    pub answer: Answer,
    pub reply: Option<modbus::Answer>,
}

// Serves a data unit that came behind an address: 03 and 04 tell a row, 06 and 16 write one, 43 and 17 tell the identity. A refusal changes nothing.
pub fn serve(plant: &mut Plant, port: &mut Numbers, address: u8, unit: &[u8]) -> Exchange
    ensures { exchanged_in plant.new port.new result ≡ exchanged plant.old port.old address unit.now }
{
    let request = modbus::request_of(unit);
    let task = task_of(plant[STATION], address, request, unit);
    let answer = do_task(plant, port, task);
    let reply = reply_to(address, head_of(request), answer);
    Exchange { answer, reply }
}

// Whether the address is ours or broadcast.
#[tactic(auto, unfolding(crate::specs::Serve::reaches_us), using(base::proofs::Tests::tests))]
fn reaches_us(station: u32, address: u8) -> bool
    ensures { result ≡ reaches_us station address }
{
    address == 0 || u32::from(address) == station
}

// What a request asks of the plant, or the first of the refusals 1, 9, 1, 8, 2 that applies.
#[tactic(auto, using(crate::proofs::Laws::task_other, crate::proofs::Laws::task_read_all, crate::proofs::Laws::task_read_none, crate::proofs::Laws::task_read, crate::proofs::Laws::task_one_none, crate::proofs::Laws::task_one, crate::proofs::Laws::task_many_none, crate::proofs::Laws::task_many, crate::proofs::Laws::task_identify, crate::proofs::Laws::task_serial, crate::proofs::Laws::task_malformed_all, crate::proofs::Laws::task_malformed, crate::proofs::Laws::task_unknown))]
fn task_of(station: u32, address: u8, request: Request, unit: &[u8]) -> Task
    ensures { result ≡ task_of station address request unit.now }
{
    if !reaches_us(station, address) {
        return Task::Say(Answer::NotOurs);
    }
    match request {
        Request::Read(_, _, _) if address == 0 => Task::Say(Answer::NotOurs),
        Request::Read(_, first, count) => {
            let Some(row) = first.span(count) else {
                return Task::Say(Answer::Refused(Refusal::NoRow));
            };
            Task::Tell(row)
        }
        Request::One(register, word) => {
            let Some(row) = register.span(1) else {
                return Task::Say(Answer::Refused(Refusal::NoRow));
            };
            Task::Write(row, u32::from(word))
        }
        Request::Many(first, count, place) => {
            let Some(row) = first.span(count) else {
                return Task::Say(Answer::Refused(Refusal::NoRow));
            };
            Task::Write(row, modbus_words::long_at(unit, place.from))
        }
        Request::Identify(code, object) => part_task(
            address,
            identity::objects_asked(code, object),
        ),
        Request::Serial => part_task(address, Some(Part::Serial)),
        Request::Malformed(function) if broadcast_read(address, function) => {
            Task::Say(Answer::NotOurs)
        }
        Request::Malformed(_) => Task::Say(Answer::Refused(Refusal::Malformed)),
        Request::Unknown(_) => Task::Say(Answer::Refused(Refusal::NoFunction)),
    }
}

// A part of the identity is said to one master, and not to all. An object that there is not is refusal 2.
fn part_task(address: u8, named: Option<Part>) -> Task
    ensures { result ≡ part_task address named }
{
    if address == 0 {
        return Task::Say(Answer::NotOurs);
    }
    let Some(part) = named else {
        return Task::Say(Answer::Refused(Refusal::NoRow));
    };
    Task::Say(Answer::Identified(part))
}

// Whether a function is a read: 03, 04, 17 or 43.
#[tactic(auto, using(base::proofs::Tests::tests))]
fn is_read(function: u8) -> bool
    ensures { result ≡ reading function }
{
    matches!(function, 3 | 4 | 17 | 43)
}

// Whether a read came to all.
#[tactic(auto, using(base::proofs::Tests::tests))]
fn broadcast_read(address: u8, function: u8) -> bool
    ensures { result ≡ both (to_all address) (reading function) }
{
    address == 0 && is_read(function)
}

// The row is told or written, with refusals 3 to 7; or nothing changes, and this is said.
fn do_task(plant: &mut Plant, port: &mut Numbers, task: Task) -> Answer
    ensures { record { plant = plant.new; port = port.new; answer = result } ≡ done plant.old port.old task }
{
    match task {
        Task::Tell(row) => Answer::Told(row, reading::read(plant, port, row)),
        Task::Write(row, value) => service::write(plant, row, value),
        Task::Say(answer) => answer,
    }
}

// What a reply repeats of a request. What is malformed or unknown has no registers that a reply could name.
fn head_of(request: Request) -> Head
    ensures { result ≡ head_of request }
{
    match request {
        Request::Read(function, register, number) => Head {
            function,
            register,
            number,
        },
        Request::One(register, number) => Head {
            function: 6,
            register,
            number,
        },
        Request::Many(register, number, _) => Head {
            function: 16,
            register,
            number,
        },
        Request::Identify(_, _) => Head {
            function: 43,
            register: Register(0),
            number: 0,
        },
        Request::Serial => Head {
            function: 17,
            register: Register(0),
            number: 0,
        },
        Request::Malformed(function) | Request::Unknown(function) => Head {
            function,
            register: Register(0),
            number: 0,
        },
    }
}

// What is replied behind an address, by the head of the request and what it came to.
fn reply_to(address: u8, head: Head, answer: Answer) -> Option<modbus::Answer>
    ensures { result ≡ replied_by address head answer }
{
    if address == 0 {
        return None;
    }
    match answer {
        Answer::Told(row, word) => Some(registers(head.function, row, word)),
        Answer::Written(_) => Some(modbus::Answer::Echo(head.function, head.register, head.number)),
        Answer::Identified(part) => Some(modbus::Answer::Identity(part)),
        Answer::NotOurs => None,
        Answer::Refused(refusal) => Some(modbus::Answer::Exception(
            head.function,
            exception_of(refusal),
        )),
    }
}

// The registers of a row that told a word.
fn registers(function: u8, row: Row, word: u32) -> modbus::Answer
    ensures { result ≡ registers_told function row word }
{
    if row.width() == 2 {
        modbus::Answer::Long(function, word)
    } else {
        modbus::Answer::Word(function, (word % 65536) as u16)
    }
}

// The exception's number. A function and no `From<Refusal> for u8`: that would stand in `answers`, beside document 01's number.
fn exception_of(refusal: Refusal) -> u8
    ensures { result ≡ exception_of refusal }
{
    match refusal {
        Refusal::NoFunction => 1,
        Refusal::NoRow | Refusal::ReadOnly => 2,
        Refusal::NotAllowed | Refusal::Malformed => 3,
        Refusal::FlagStands | Refusal::Running | Refusal::NotPermitted => 4,
    }
}
