//! A server of scripts: an engine, in a context of lines.
ghost use Rattle.std.specs.Prelude.{◌≡◌, ◌≤◌, IfOk, IsErrOf, OnOk};
ghost use Rattle.std.specs.Thread.{IsSync};
ghost use Rattle.vpg_engine.specs.Faults.{IsAstray};
ghost use Rattle.vpg_engine.specs.Engine.{between_of};
ghost use Rattle.vpg_script.specs.Answer.{Gives};
ghost use Rattle.vpg_script.specs.View.{request_shown};

use std::alloc::Global;
use std::sync::Wait;
use std::thread::Threads;
use vpg_engine::Engine;
use vpg_family::Context;
use vpg_office::Terms;
use vpg_script::{Command, Request, ServeFault, Server, Tone, meant};

/// An engine in the context of lines. It can't be dropped, as the engine can't.
pub(crate) struct Answering<'c, L: Terms> {
    pub(crate) engine: Engine<L>,
    pub(crate) context: &'c Context,
}

impl<L: Terms> Server for Answering<'_, L> {
    ghost use Rattle.vpg_engine.specs.Line.{Between};
    ghost use Rattle.vpg_report.specs.Run.{Called, answering_called, called_by};

    ghost Scene = { Called };

    ghost State = { Between };

    ghost answering = { answering_called };

    ghost scene = { λ a. called_by a.engine a.context.now };

    ghost state = { λ a. between_of a.engine };

    /// Carries a request out, as it is meant in the context.
    fn serve<T: Threads + Wait + Sync>(
        &mut self,
        rt: &T,
        alloc: Global,
        lifters: u32,
        request: &Request<'_>,
        out: &mut Vec<u8>,
    ) -> Result<Tone, ServeFault>
        requires sync { IsSync T.row }
        requires lifters { (1 ≤ lifters) × (lifters ≤ 64) }
        ensures answer { IfOk result
            (λ tone. Gives
            (λ answer. answering_called (called_by self.old.engine self.old.context.now) lifters
            (between_of self.old.engine)
            (request_shown request.now) answer (between_of self.new.engine)) tone out.old.items out.new.items) }
        ensures scene { OnOk result (called_by self.new.engine self.new.context.now
            ≡ called_by self.old.engine self.old.context.now) }
        // A request strays only where the log or the sessions show it.
        ensures strayed { IsErrOf result ServeFault.Stray →
            IsAstray self.old.engine.client request.now.label self.new.engine.client }
    {
        let features = self.engine.diagram().names();
        let said = meant(alloc, &self.context.callings, features, request)?;
        let (session, context) = (said.label, self.context);
        let labels = &context.labels;
        match &said.command {
            Command::Select(name) => self.engine.decide(rt, alloc, session, *name, true, out),
            Command::Exclude(name) => self.engine.decide(rt, alloc, session, *name, false, out),
            Command::Retract(name) => self.engine.retract(rt, alloc, session, *name, out),
            Command::Reset => self.engine.reset(rt, alloc, session, out),
            Command::Undo(serial) => self.engine.undo(rt, alloc, session, *serial, out),
            Command::Redo(serial) => self.engine.redo(rt, alloc, session, *serial, out),
            Command::Keep(serial) => self.engine.keep(rt, session, *serial, out),
            Command::Forget(serial) => self.engine.forget(rt, session, *serial, out),
            Command::Lift(table, vertex) => {
                self.engine.lift(rt, alloc, session, *table, *vertex, out)
            }
            Command::Harvest => self.engine.harvest(rt, alloc, session, lifters, out),
            Command::Commit(number) => self.engine.commit(rt, alloc, session, *number, out),
            Command::Settle(sweeps) => {
                self.engine
                    .settle(rt, alloc, session, *sweeps, lifters, out)
            }
            Command::Changed => self.engine.changed(rt, alloc, session, labels, out),
            Command::Look(look) => self.engine.look(rt, alloc, session, context, look, out),
        }
    }
}
