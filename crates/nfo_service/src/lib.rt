// A message of NFO serial, served by the plant: the order of refusals, what is done, and what is replied.
//
// `serve` does what a message asks, in the plant and the port that it is lent; `write_answer` puts the reply into a lent buffer.
#![tactic(auto)]

ghost use Rattle.std.specs.Prelude.{◌≡◌, eqb, length};
ghost use Rattle.base.specs.Buffers.{front, fitting};
ghost use Rattle.nfo_service.specs.Serve.{adr_of, to_us, reaches_us, row_named, stops, row_selected, select_served, enquiry_served, served};
ghost use Rattle.nfo_service.specs.Reply.{adr_in, parameter_in, e_number_in, replied_by, replied};

use answers::{Answer, Change, Refusal};
use drive::Plant;
use nfo_parts::Message;
use port::{Numbers, SIOERR};
use table::names::{SCMD, SI_ADR};
use table::{ENumber, Row};

// Serves a message: an ENQUIRY tells a row, a SELECT writes one. A refusal changes nothing.
#[tactic(auto, unfolding(crate::specs::Serve::served))]
pub fn serve(plant: &mut Plant, port: &mut Numbers, message: Message) -> Answer
    ensures { record { plant = plant.new; port = port.new; answer = result } ≡ served plant.old port.old message }
{
    match message {
        Message::Enquiry { adr, parameter } => enquire(plant, port, adr, parameter),
        Message::Select {
            adr,
            parameter,
            value,
        } => select(plant, port, adr, parameter, value),
    }
}

// Whether ADR is ours: SiAdr or 0, but for 95, which is broadcast.
#[tactic(auto, unfolding(crate::specs::Serve::to_us))]
fn to_us(plant: &Plant, adr: u8) -> bool
    ensures { result ≡ to_us plant.now adr }
{
    adr != 0x7F && (adr == 0x20 || is_adr(adr, plant[SI_ADR]))
}

// Whether ADR is that of an address.
fn is_adr(adr: u8, address: u32) -> bool
    ensures { result ≡ eqb adr (adr_of address) }
{
    u64::from(adr) == u64::from(address) + 32
}

// Whether ADR is ours or broadcast.
#[tactic(auto, unfolding(crate::specs::Serve::reaches_us))]
fn reaches_us(plant: &Plant, adr: u8) -> bool
    ensures { result ≡ reaches_us plant.now adr }
{
    adr == 0x7F || to_us(plant, adr)
}

// The row that a message names.
#[tactic(auto, unfolding(crate::specs::Serve::row_named))]
fn row_of(parameter: Option<ENumber>) -> Option<Row>
    ensures { result ≡ row_named parameter }
{
    parameter.and_then(|e| e.row())
}

#[tactic(auto, unfolding(crate::specs::Serve::enquiry_served, service::specs::Serving::told_served))]
fn enquire(plant: &mut Plant, port: &mut Numbers, adr: u8, parameter: Option<ENumber>) -> Answer
    ensures { record { plant = plant.new; port = port.new; answer = result } ≡ enquiry_served plant.old port.old adr parameter }
{
    if !to_us(plant, adr) {
        return Answer::NotOurs;
    }
    let Some(row) = row_of(parameter) else {
        return Answer::Refused(Refusal::NoRow);
    };
    Answer::Told(row, reading::read(plant, port, row))
}

#[tactic(auto, unfolding(crate::specs::Serve::select_served))]
fn select(
    plant: &mut Plant,
    port: &mut Numbers,
    adr: u8,
    parameter: Option<ENumber>,
    value: Option<u16>,
) -> Answer
    ensures { record { plant = plant.new; port = port.new; answer = result } ≡ select_served plant.old port.old adr parameter value }
{
    if !reaches_us(plant, adr) {
        return Answer::NotOurs;
    }
    let Some(row) = row_of(parameter) else {
        return Answer::Refused(Refusal::NoRow);
    };
    select_row(plant, port, adr, row, value)
}

// A SELECT of a row that there is.
#[tactic(auto, using(service::proofs::Laws::wrote_is), unfolding(crate::specs::Serve::row_selected))]
fn select_row(
    plant: &mut Plant,
    port: &mut Numbers,
    adr: u8,
    row: Row,
    value: Option<u16>,
) -> Answer
    ensures { record { plant = plant.new; port = port.new; answer = result } ≡ row_selected plant.old port.old adr row value }
{
    if permit::read_only(row) {
        return Answer::Refused(Refusal::ReadOnly);
    }
    let Some(word) = value else {
        return Answer::Refused(Refusal::Malformed);
    };
    let w = u32::from(word);
    if is_stop(plant, adr, row, w) {
        drive::stop(plant);
        port[SIOERR] = 0;
        return Answer::Written(Change { row, word: w });
    }
    service::write(plant, row, w)
}

// The broadcast stop: SCMD 0 to all, while 14 is the only flag.
#[tactic(auto, unfolding(crate::specs::Serve::stops))]
fn is_stop(plant: &Plant, adr: u8, row: Row, word: u32) -> bool
    ensures { result ≡ stops plant.now adr row.0 word }
{
    adr == 0x7F && row.0 == SCMD && word == 0 && drive::only_14(plant)
}

// Puts the reply to a message at the start of a lent buffer, and tells its length: 0 where there is none, or where it does not fit.
#[tactic(auto, unfolding(crate::specs::Reply::replied, base::specs::Buffers::front, base::specs::Buffers::fitting))]
pub fn write_answer(message: Message, answer: Answer, out: &mut [u8]) -> usize
    ensures count { result ≡ length (fitting (replied message answer) (length out.old)) }
    ensures lent { out.new ≡ front (fitting (replied message answer) (length out.old)) out.old }
{
    let to = adr_in(message);
    if to == 0x7F {
        return 0;
    }
    put(to, number_in(message), answer, out)
}

fn adr_in(message: Message) -> u8
    ensures { result ≡ adr_in message }
{
    match message {
        Message::Enquiry { adr, .. } | Message::Select { adr, .. } => adr,
    }
}

fn parameter_in(message: Message) -> Option<ENumber>
    ensures { result ≡ parameter_in message }
{
    match message {
        Message::Enquiry { parameter, .. } | Message::Select { parameter, .. } => parameter,
    }
}

// The E number that a message names, or 0.
fn number_in(message: Message) -> ENumber
    ensures { result.0 ≡ e_number_in (parameter_in message) }
{
    parameter_in(message).unwrap_or(ENumber(0))
}

#[tactic(auto, unfolding(crate::specs::Reply::replied_by, base::specs::Buffers::front, base::specs::Buffers::fitting))]
fn put(adr: u8, e: ENumber, answer: Answer, out: &mut [u8]) -> usize
    ensures count { result ≡ length (fitting (replied_by adr e.0 answer) (length out.old)) }
    ensures lent { out.new ≡ front (fitting (replied_by adr e.0 answer) (length out.old)) out.old }
{
    match answer {
        Answer::Told(_, word) => nfo_parts::reply(adr, e, (word % 65536) as u16, out),
        Answer::Written(_) => nfo_parts::ack(adr, out),
        Answer::Identified(_) | Answer::NotOurs => 0,
        Answer::Refused(_) => nfo_parts::nak(adr, out),
    }
}
