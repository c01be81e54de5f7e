//! The replies of a session, item by item.
ghost use Rattle.std.specs.Prelude.{◌≡◌, ◌≢◌, ◌||◌, ℕ, false, None, IfOk, OnOk, OnErr, IfSome, codes};
ghost use Rattle.std.specs.Option.{option_to_list};
ghost use Rattle.gl_calculus.specs.Steps.Rule.{PicksBelow};
ghost use Rattle.gl_ast.specs.View.{version_tree};
ghost use Rattle.gl_script.specs.Framer.{told, stream_at};
ghost use Rattle.gl_protocol.specs.Framing.Stream.{nothing, step, gained, after};
ghost use Rattle.laws_protocol.specs.FramingLaw.{up_to_quit};
ghost use Rattle.gl_protocol.specs.Framing.Framing.{has_quit};
ghost use Rattle.gl_protocol.specs.Scripts.Output.{is_line};
ghost use Rattle.gl_protocol.specs.Scripts.Output.{is_refusal};
ghost use Rattle.gl_run.specs.State.{state_of, start, fresh};
ghost use Rattle.gl_run.specs.Serving.{ended_item, byte_item, last_item, TellsQuit, Serves};
ghost use Rattle.gl_run.specs.Planned.{GoesByPlan};
ghost use Rattle.gl_run.specs.{Sending.Collects};
ghost use Rattle.gl_run.specs.Answering.{ActsOnSome, SpendsOnSome, Leads};
ghost use Rattle.gl_run.specs.{Script.known_of, Framed.IsFramed, Framed.HasHeader};
ghost use Rattle.gl_calc.specs.{Engine.rule_in};

use crate::answers::{answer_line, answer_long, answer_truncated, is_version_line};
use crate::imports::answer_import;
use crate::script::new_script;
use crate::sending::{collect, pass_on, send};
use crate::session::{Session, Stop};
use gl_ast::Version;
use gl_calc::Engine;
use gl_demand::{Steps, Watch};
use gl_plane::NoMemory;
use gl_port::Sink;
use gl_script::{Ended, Framer, is_quit};
use std::alloc::Global;

// Whether a reply is an `error` line.
fn is_refusal(reply: &[u8]) -> bool
    ensures { result ≡ is_refusal reply.now }
{
    reply.starts_with(b"error ".as_slice())
}

// `||` as a call, whose clause is at hand behind it.
fn either(a: bool, b: bool) -> bool
    ensures { result ≡ (a || b) }
{
    a || b
}

impl Session {
    /// Nothing is begun, and the sheet is empty.
    pub fn new(alloc: Global) -> Result<Session, NoMemory>
        ensures stream { IfOk result (λ s. stream_at s.framer ≡ nothing) }
        ensures state { IfOk result (λ s. (n : ℕ) → state_of s n ≡ start n) }
        ensures refused { IfOk result (λ s. s.refused ≡ false) }
    {
        let script = new_script(alloc)?;
        Ok(Session {
            framer: Framer::new(alloc),
            script,
            version: None,
            refused: false,
        })
    }

    /// Whether a command was refused.
    pub fn refused(&self) -> bool
        ensures { result ≡ self.now.refused }
    {
        self.refused
    }

    // Whether it is the line that gives a script version Two.
    fn asks_version_two(&self, ended: Ended) -> bool
        ensures { IfSome (told ended self.now.framer) (λ item.
            result ≡ is_line (codes "gridlet 2") item) }
    {
        match ended {
            Ended::Line => is_version_line(self.framer.line()),
            _ => false,
        }
    }

    // The reply to the item that ended, in a script of this version.
    fn answer_in<F: Fn(u8, u64, u64) -> u64, L: Watch>(
        &mut self,
        engine: &Engine<F>,
        version: Version,
        steps: &mut Steps<L>,
        ended: Ended,
    ) -> Result<Vec<u8>, NoMemory>
        requires rule { PicksBelow (F.pre (rule_in engine.now)) (F.post (rule_in engine.now)) }
        requires framed { IfSome (told ended self.old.framer) IsFramed }
        ensures acts { ActsOnSome (version_tree version) (told ended self.old.framer)
            self.old.script result self.new.script }
        ensures spends { SpendsOnSome (version_tree version) (told ended self.old.framer)
            self.old.script steps.old result self.new.script steps.new }
        ensures framer { self.new.framer ≡ self.old.framer }
        ensures version { self.new.version ≡ self.old.version }
        ensures refused { self.new.refused ≡ self.old.refused }
    {
        match ended {
            Ended::Nothing => Ok(Vec::new(engine.alloc)),
            Ended::Line => answer_line(
                engine,
                &mut self.script,
                version,
                steps,
                self.framer.line(),
            ),
            Ended::Import => answer_import(
                engine.alloc,
                &mut self.script,
                self.framer.header(),
                self.framer.payload(),
            ),
            Ended::Long => answer_long(engine.alloc),
            Ended::Truncated => answer_truncated(engine.alloc),
        }
    }

    // The reply to the first item, which gives the script its version.
    fn answer_first<F: Fn(u8, u64, u64) -> u64, L: Watch>(
        &mut self,
        engine: &Engine<F>,
        steps: &mut Steps<L>,
        ended: Ended,
    ) -> Result<Vec<u8>, NoMemory>
        requires rule { PicksBelow (F.pre (rule_in engine.now)) (F.post (rule_in engine.now)) }
        requires framed { IfSome (told ended self.old.framer) IsFramed }
        ensures acts { Leads (told ended self.old.framer)
            (fresh (known_of self.old.script) steps.old) result (state_of self.new steps.new) }
        ensures framer { self.new.framer ≡ self.old.framer }
        ensures refused { self.new.refused ≡ self.old.refused }
    {
        if self.asks_version_two(ended) {
            self.version = Some(Version::Two);
            return Ok(b"ok\n".to_vec(engine.alloc)?);
        }
        self.version = Some(Version::One);
        self.answer_in(engine, Version::One, steps, ended)
    }

    // The reply to the item that ended.
    fn answer<F: Fn(u8, u64, u64) -> u64, L: Watch>(
        &mut self,
        engine: &Engine<F>,
        steps: &mut Steps<L>,
        ended: Ended,
    ) -> Result<Vec<u8>, NoMemory>
        requires rule { PicksBelow (F.pre (rule_in engine.now)) (F.post (rule_in engine.now)) }
        requires framed { IfSome (told ended self.old.framer) IsFramed }
        ensures acts { Leads (told ended self.old.framer) (state_of self.old steps.old) result
            (state_of self.new steps.new) }
        ensures framer { self.new.framer ≡ self.old.framer }
        ensures refused { self.new.refused ≡ self.old.refused }
    {
        match self.version {
            Some(version) => self.answer_in(engine, version, steps, ended),
            None => self.answer_first(engine, steps, ended),
        }
    }

    // Whether it is `quit`.
    fn quits(&self, ended: Ended) -> bool
        ensures { result ≡ has_quit (option_to_list (told ended self.now.framer)) }
    {
        match ended {
            Ended::Line => is_quit(self.framer.line()),
            _ => false,
        }
    }

    // Answers an item, and collects the reply. Tells whether it is `quit`.
    fn emit_item<F: Fn(u8, u64, u64) -> u64, L: Watch>(
        &mut self,
        engine: &Engine<F>,
        steps: &mut Steps<L>,
        ended: Ended,
        out: &mut Vec<u8>,
    ) -> Result<bool, NoMemory>
        requires rule { PicksBelow (F.pre (rule_in engine.now)) (F.post (rule_in engine.now)) }
        requires some { ended ≢ Ended.Nothing }
        requires framed { IfSome (told ended self.old.framer) IsFramed }
        ensures collects { OnOk result (Collects self.old self.new steps.old steps.new out.old.items
            out.new.items (ended_item ended self.old.framer)) }
        ensures err { OnErr result (out.new.items ≡ out.old.items) }
        ensures quits { TellsQuit result (ended_item ended self.old.framer) }
        ensures framer { self.new.framer ≡ self.old.framer }
    {
        let quits = self.quits(ended);
        let reply = self.answer(engine, steps, ended)?;
        self.refused = either(self.refused, is_refusal(&reply));
        collect(out, reply)?;
        Ok(quits)
    }

    // The same, where an item ended.
    fn emit<F: Fn(u8, u64, u64) -> u64, L: Watch>(
        &mut self,
        engine: &Engine<F>,
        steps: &mut Steps<L>,
        ended: Ended,
        out: &mut Vec<u8>,
    ) -> Result<bool, NoMemory>
        requires rule { PicksBelow (F.pre (rule_in engine.now)) (F.post (rule_in engine.now)) }
        requires framed { IfSome (told ended self.old.framer) IsFramed }
        ensures collects { OnOk result (Collects self.old self.new steps.old steps.new out.old.items
            out.new.items (ended_item ended self.old.framer)) }
        ensures err { OnErr result (out.new.items ≡ out.old.items) }
        ensures quits { TellsQuit result (ended_item ended self.old.framer) }
        ensures framer { self.new.framer ≡ self.old.framer }
    {
        match ended {
            Ended::Nothing => Ok(false),
            item => self.emit_item(engine, steps, item, out),
        }
    }

    // Takes the next byte. Tells whether a `quit` ended with it.
    fn take_byte<F: Fn(u8, u64, u64) -> u64, L: Watch>(
        &mut self,
        engine: &Engine<F>,
        steps: &mut Steps<L>,
        b: u8,
        out: &mut Vec<u8>,
    ) -> Result<bool, NoMemory>
        requires rule { PicksBelow (F.pre (rule_in engine.now)) (F.post (rule_in engine.now)) }
        requires header { HasHeader (stream_at self.old.framer) }
        ensures collects { OnOk result (Collects self.old self.new steps.old steps.new out.old.items
            out.new.items (byte_item self.old.framer b)) }
        ensures err { OnErr result (out.new.items ≡ out.old.items) }
        ensures quits { TellsQuit result (byte_item self.old.framer b) }
        ensures framer { OnOk result
            (stream_at self.new.framer ≡ (step (stream_at self.old.framer) b).0) }
    {
        let ended = self.framer.push(b)?;
        self.emit(engine, steps, ended, out)
    }

    /// Takes the next bytes, up to a `quit`, and writes the replies to the items that end in them,
    /// many at once. Tells whether a `quit` did. After an `Err` it is of no further use.
    pub fn take<F: Fn(u8, u64, u64) -> u64, L: Watch, K: Sink>(
        &mut self,
        engine: &Engine<F>,
        steps: &mut Steps<L>,
        chunk: &[u8],
        sink: &mut K,
    ) -> Result<bool, Stop>
        requires rule { PicksBelow (F.pre (rule_in engine.now)) (F.post (rule_in engine.now)) }
        requires header { HasHeader (stream_at self.old.framer) }
        ensures serves { Serves K.taken K.takes K.is_exact K.faults sink.old sink.new result
            self.old steps.old self.new steps.new
            (up_to_quit (gained (stream_at self.old.framer) chunk.now)) }
        ensures planned { GoesByPlan (K.plan sink.old) (K.plan sink.new) result }
        ensures quits { TellsQuit result (gained (stream_at self.old.framer) chunk.now) }
        ensures framer { IfOk result (λ quits. quits ≡ false
            → stream_at self.new.framer ≡ after (stream_at self.old.framer) chunk.now) }
    {
        let mut out = Vec::new(engine.alloc);
        for b in chunk {
            match self.take_byte(engine, steps, *b, &mut out) {
                Ok(false) => {}
                Ok(true) => return send(sink, &out, Ok(true)),
                Err(NoMemory) => return send(sink, &out, Err(Stop::NoMemory)),
            }
            match pass_on(sink, &mut out) {
                Ok(()) => {}
                Err(stop) => return Err(stop),
            }
        }
        send(sink, &out, Ok(false))
    }

    /// Ends the input, and writes the reply to the item that ends with it. After an `Err` it is of no
    /// further use.
    pub fn finish<F: Fn(u8, u64, u64) -> u64, L: Watch, K: Sink>(
        &mut self,
        engine: &Engine<F>,
        steps: &mut Steps<L>,
        sink: &mut K,
    ) -> Result<(), Stop>
        requires rule { PicksBelow (F.pre (rule_in engine.now)) (F.post (rule_in engine.now)) }
        requires header { HasHeader (stream_at self.old.framer) }
        ensures serves { Serves K.taken K.takes K.is_exact K.faults sink.old sink.new result
            self.old steps.old self.new steps.new (last_item self.old.framer) }
        ensures planned { GoesByPlan (K.plan sink.old) (K.plan sink.new) result }
    {
        let mut out = Vec::new(engine.alloc);
        let ended = self.framer.finish()?;
        self.emit(engine, steps, ended, &mut out)?;
        send(sink, &out, Ok(()))
    }
}
