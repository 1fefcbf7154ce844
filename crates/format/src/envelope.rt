// The envelope: who sends to whom, when, and the separators.
ghost use Rattle.format.specs.Envelope.{envelope_c, Envelope as AEnvelope};

use codec::forms::{Le, Opt};
use codec::{Form, Section};

pub struct Envelope;

// The fields one after the other, written out, since each pass over them keeps other places.
impl Form for Envelope {
    ghost Value = { AEnvelope };

    ghost codec = { envelope_c };

    fn ends_at(s: Section, at: usize) -> usize {
        let sender_qualifier = s.bytes_at(at);
        let sender_id = s.bytes_at(sender_qualifier);
        let receiver_qualifier = s.bytes_at(sender_id);
        let receiver_id = s.bytes_at(receiver_qualifier);
        let application_sender = s.opt_bytes_at(receiver_id);
        let application_receiver = s.opt_bytes_at(application_sender);
        let date = s.le_at(4, application_receiver);
        let time = s.le_at(4, date);
        let usage_indicator = s.bytes_at(time);
        let control_number = s.le_at(8, usage_indicator);
        let element = s.le_at(1, control_number);
        let component = s.le_at(1, element);
        let segment = s.le_at(1, component);
        let repetition = Opt::<Le<1>>::ends_at(s, segment);
        s.case_at(2, repetition)
    }
}
