//! The four tools as one client.
ghost use Rattle.std.specs.Prelude.{◌≡◌, ◌+◌, ◌<◌, ◌^◌, true, false, not, is_some, None, IfOk, OnOk, OnErr, IsOkUnless, option_copied};
ghost use Rattle.gl_args.specs.Options.{tool_in};
ghost use Rattle.gl_client.specs.Program.{Program, Left, Goes, given, goes_on, done, MatchNext};
ghost use Rattle.gl_values.specs.Set.{stops};
ghost use Rattle.gl_values.specs.Client.{tool_program, held_program, client_left, has_ended, held_by, holding_nothing, nothing_held};

use crate::detect::Detect;
use crate::get::Get;
use crate::info::InfoTool;
use crate::set::{Hold, Set};
use gl_args::Tool;
use gl_base::{Errno, Got};
use gl_client::Next;
use std::alloc::Global;

/// gpiodetect, gpioinfo, gpioget or gpioset, as a client of the device: its program is that of its tool.
#[derive(Drop)]
pub enum Client {
    /// gpiodetect.
    Detect(Detect),
    /// gpioinfo.
    Info(InfoTool),
    /// gpioget.
    Get(Get),
    /// gpioset.
    Set(Set),
    /// A tool that is no client of these: it does nothing.
    Nothing,
}

impl Client {
    /// The tool as a statement, which leaves nothing open. It uses the slots `base` and `base + 1` alone. A monitor
    /// does nothing here.
    pub fn new(alloc: Global, tool: Tool, base: u32) -> Client
        requires { base + 1 < 2 ^ 32 }
        ensures { client_left result ≡ goes_on (tool_program (tool_in tool) base) }
    {
        match tool {
            Tool::Detect(words) => Client::Detect(Detect::new(words, base)),
            Tool::Info(opts) => Client::Info(InfoTool::new(alloc, opts, base)),
            Tool::Get(opts) => Client::Get(Get::new(alloc, opts, base, base + 1)),
            Tool::Set(opts) => Client::Set(Set::new(alloc, opts, Hold::No, base, base + 1)),
            Tool::Watch(_) => Client::Nothing,
            Tool::Notify(_) => Client::Nothing,
        }
    }

    /// The gpioset of a `start`, which holds its request in the slot `base + 1` until it is stopped. Every other tool
    /// does nothing here.
    pub fn held(alloc: Global, tool: Tool, base: u32) -> Client
        requires { base + 1 < 2 ^ 32 }
        ensures { client_left result ≡ goes_on (held_program (tool_in tool) base) }
    {
        match tool {
            Tool::Set(opts) => Client::Set(Set::new(alloc, opts, Hold::Yes, base, base + 1)),
            Tool::Detect(_) => Client::Nothing,
            Tool::Info(_) => Client::Nothing,
            Tool::Get(_) => Client::Nothing,
            Tool::Watch(_) => Client::Nothing,
            Tool::Notify(_) => Client::Nothing,
        }
    }

    /// What it does next. `got` is the result of the operation that it asked for last, if it asked for one. End means
    /// that the statement, the start or the stop is done: then what is left is said by what it holds, and it has
    /// ended exactly where it holds nothing. Behind a Call or a Print it hasn't ended.
    /// When out of memory, what is left is what was left, and it holds what it held: it may be called again with the same
    /// result.
    pub fn next(&mut self, alloc: Global, got: Option<&Got>) -> Result<Next, Errno>
        ensures goes { IfOk result (λ next. Goes (given (client_left self.old) (option_copied got.entry)) next (client_left self.new)) }
        ensures rests { IfOk result (λ next. MatchNext next (Unit {0}) (client_left self.new ≡ goes_on (done (held_by self.new)))) }
        ensures ended { IfOk result (λ next. MatchNext next (has_ended self.new ≡ false) (has_ended self.new ≡ not (is_some (held_by self.new)))) }
        ensures kept { OnErr result ((client_left self.new ≡ client_left self.old) × (held_by self.new ≡ held_by self.old)) }
        ensures memory_alone { IsOkUnless result Errno.NoMemory }
    {
        let mut step = Next::End;
        self.put_next(alloc, got, &mut step)?;
        Ok(step)
    }

    /// Puts into `step` what it does next, as `next` answers it. When out of memory `step` means nothing.
    pub fn put_next(
        &mut self,
        alloc: Global,
        got: Option<&Got>,
        step: &mut Next,
    ) -> Result<(), Errno>
        ensures goes { OnOk result (Goes (given (client_left self.old) (option_copied got.entry)) step.new (client_left self.new)) }
        ensures rests { OnOk result (MatchNext step.new (Unit {0}) (client_left self.new ≡ goes_on (done (held_by self.new)))) }
        ensures ended { OnOk result (MatchNext step.new (has_ended self.new ≡ false) (has_ended self.new ≡ not (is_some (held_by self.new)))) }
        ensures kept { OnErr result ((client_left self.new ≡ client_left self.old) × (held_by self.new ≡ held_by self.old)) }
        ensures memory_alone { IsOkUnless result Errno.NoMemory }
    {
        match self {
            Client::Detect(detect) => {
                detect.put_next(alloc, got, step)?;
                self.behind(step);
                Ok(())
            }
            Client::Info(info) => {
                info.put_next(alloc, got, step)?;
                self.behind(step);
                Ok(())
            }
            Client::Get(get) => {
                get.put_next(alloc, got, step)?;
                self.behind(step);
                Ok(())
            }
            Client::Set(set) => set.put_next(alloc, got, step),
            Client::Nothing => {
                *step = Next::End;
                Ok(())
            }
        }
    }

    /// Stops a tool that holds its request: `next` closes it after this. One that holds nothing has ended then.
    pub fn stop(&mut self)
        ensures { client_left self.new ≡ goes_on (stops (held_by self.old)) }
    {
        match self {
            Client::Set(set) => set.stop(),
            Client::Detect(_) | Client::Info(_) | Client::Get(_) | Client::Nothing => {
                *self = Client::Nothing;
            }
        }
    }

    /// The slot of the request that it holds, if it holds one.
    pub fn held_slot(&self) -> Option<u32>
        ensures { result ≡ held_by self.now }
    {
        match self {
            Client::Set(set) => set.held_slot(),
            Client::Detect(_) | Client::Info(_) | Client::Get(_) | Client::Nothing => None,
        }
    }

    /// Whether the tool has ended, so that its name is free: so it is from the End on at which it holds nothing. Then
    /// nothing is left of its program.
    pub fn ended(&self) -> bool
        ensures told { result ≡ has_ended self.now }
        ensures nothing_left { result ≡ true → client_left self.now ≡ goes_on (done None) }
    {
        match self {
            Client::Set(set) => set.ended(),
            Client::Detect(_) | Client::Info(_) | Client::Get(_) => false,
            Client::Nothing => true,
        }
    }

    /// Behind a step of a tool that holds nothing: where it has come to its end, nothing is left of it.
    fn behind(&mut self, step: &Next)
        ensures goes { (p : Program (Unit {0})) (l : Left (Unit {0})) → client_left self.old ≡ nothing_held l → Goes p step.now l → Goes (holding_nothing p) step.now (client_left self.new) }
        ensures ended { MatchNext step.now (self.new ≡ self.old) (self.new ≡ Client.Nothing) }
    {
        match step {
            Next::Call(_) => {}
            Next::Print(_) => {}
            Next::End => *self = Client::Nothing,
        }
    }
}
