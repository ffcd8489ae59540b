//! The state of reading: what was read so far, and how the line of each macro changes it.
ghost use Rattle.std.specs.Prelude.{◌≡◌, ◌++◌, Ok, OnOk, [], map};
ghost use Rattle.macro_code.specs.ReadText.{alloc_line, awaits_more, code_here, end_loop_line, end_main_line, end_thread_line, is_opening, loop_line, main_line, may_stand, numbered, pair_line, processor_line, semaphores_line, spawn_line, start, starts_more, sync_line, takes_instr, thread_line, transfer_line, wait_line, with_instr};
ghost use Rattle.executive_program.specs.declared.program.Instr.TheVariants as instr;
ghost use Rattle.text_lines.specs.Refusals.{Steps};
ghost use Rattle.code_reader.specs.Views.{code_of};
ghost use Rattle.code_lines.specs.Views.{instr_of};
ghost use Rattle.code_reader.specs.Read.{reading};

use crate::stage::{
    is_declared, is_ended, is_named, is_outside, is_prologue, is_threaded, is_turn,
};
use crate::written::WrittenCode;
use code_lines::{
    Arguments, Known, Numbers, Written, bad_argument, read_buffer_line, read_pair, read_pairs,
    read_sync, read_transfer,
};
use executive_program::Seq;
use macro_code::{CodeError, Macro, Numbered, Size, Stage};
use std::alloc::Global;
use std::mem;
use syn_base::{Items, OutOfMemory};

/// What was read so far.
#[derive(Drop)]
pub struct Reader {
    pub alloc: Global,
    pub stage: Stage,
    /// The operator of the processor that began last.
    pub operator: Option<u32>,
    /// The pairs of all processors, and their operators.
    pub pairs: Vec<Numbered>,
    pub owners: Vec<u32>,
    /// The buffers of all processors.
    pub buffers: Vec<Numbered>,
    pub sizes: Vec<Size>,
    /// The sequences of the processors that ended.
    pub seqs: Vec<WrittenCode>,
    /// The pairs and the buffers of the processor that began last.
    pub pairs_here: Numbers,
    pub buffers_here: Numbers,
    /// The media of its threads, of those that its main part started and of those for whose end it waits.
    pub media: Vec<u32>,
    pub spawned: Vec<u32>,
    pub awaited: Vec<u32>,
    /// Its threads that ended.
    pub threads: Vec<WrittenCode>,
    /// The sequence that began last; the main part has no medium.
    pub medium: Option<u32>,
    pub prologue: Vec<Written>,
    pub turn: Vec<Written>,
}

impl Reader {
    /// Nothing was read yet.
    pub fn new(alloc: Global) -> Reader
        ensures { reading result ≡ start }
    {
        Reader {
            alloc,
            stage: Stage::Outside,
            operator: None,
            pairs: Vec::new(alloc),
            owners: Vec::new(alloc),
            buffers: Vec::new(alloc),
            sizes: Vec::new(alloc),
            seqs: Vec::new(alloc),
            pairs_here: Numbers::new(alloc),
            buffers_here: Numbers::new(alloc),
            media: Vec::new(alloc),
            spawned: Vec::new(alloc),
            awaited: Vec::new(alloc),
            threads: Vec::new(alloc),
            medium: None,
            prologue: Vec::new(alloc),
            turn: Vec::new(alloc),
        }
    }

    /// The main part has started fewer threads than the processor has.
    fn starts_more(&self) -> bool
        ensures { result ≡ starts_more (reading self.now) }
    {
        self.medium.is_none() && self.spawned.len() < self.media.len()
    }

    /// The main part waits for fewer threads than the processor has.
    fn awaits_more(&self) -> bool
        ensures { result ≡ awaits_more (reading self.now) }
    {
        self.medium.is_none() && self.awaited.len() < self.media.len()
    }

    /// Before a loop, where all threads were started.
    fn is_opening(&self) -> bool
        ensures { result ≡ is_opening (reading self.now) }
    {
        is_prologue(self.stage) && !self.starts_more()
    }

    /// An instruction may stand here.
    pub fn takes_instr(&self) -> bool
        ensures { result ≡ takes_instr (reading self.now) }
    {
        is_turn(self.stage) || self.is_opening()
    }

    /// A line of this macro may stand here.
    pub fn may_stand(&self, found: Macro) -> bool
        ensures { result ≡ may_stand (reading self.now) found }
    {
        match found {
            Macro::Processor => is_outside(self.stage),
            Macro::Semaphores => is_named(self.stage),
            Macro::Alloc => is_declared(self.stage),
            Macro::Thread | Macro::Main => { is_declared(self.stage) || is_threaded(self.stage) }
            Macro::SpawnThread => is_prologue(self.stage) && self.starts_more(),
            Macro::Loop => self.is_opening(),
            Macro::EndLoop => is_turn(self.stage),
            Macro::EndThread => is_ended(self.stage) && self.medium.is_some(),
            Macro::WaitEndThread => is_ended(self.stage) && self.awaits_more(),
            Macro::EndMain => {
                is_ended(self.stage) && self.medium.is_none() && !self.awaits_more()
            }
            Macro::Suc0
            | Macro::Suc1
            | Macro::Pre0
            | Macro::Pre1
            | Macro::Send
            | Macro::Recv
            | Macro::Sync => self.takes_instr(),
        }
    }

    /// processor_(OPERATOR)
    pub fn processor_line(
        &mut self,
        known: &Known,
        line: u32,
        arguments: &Arguments,
    ) -> Result<(), CodeError>
        ensures { Steps result (reading self.new)
            (processor_line known.now.archi (reading self.old) line arguments.now) }
    {
        let operator = known.processor(self.alloc, line, self.operator, arguments)?;
        self.stage = Stage::Named;
        self.operator = Some(operator);
        self.pairs_here = Numbers::new(self.alloc);
        self.buffers_here = Numbers::new(self.alloc);
        self.media.clear();
        Ok(())
    }

    /// semaphores_(q,q)
    pub fn semaphores_line(&mut self, line: u32, arguments: &Arguments) -> Result<(), CodeError>
        ensures { Steps result (reading self.new)
            (semaphores_line (reading self.old) line arguments.now) }
    {
        let pairs = read_pairs(self.alloc, line, arguments)?;
        let operator = self.operator.unwrap_or(0);
        add_pairs(
            &mut self.pairs,
            &mut self.owners,
            line,
            operator,
            pairs.as_slice(),
        )?;
        self.pairs_here = pairs;
        self.stage = Stage::Declared;
        Ok(())
    }

    /// alloc_(bN,LEN) and alloc_(bN,LEN,PLACES)
    pub fn alloc_line(&mut self, line: u32, arguments: &Arguments) -> Result<(), CodeError>
        ensures { Steps result (reading self.new)
            (alloc_line (reading self.old) line arguments.now) }
    {
        let declared = read_buffer_line(line, &self.buffers_here, arguments)?;
        self.buffers.push(Numbered {
            number: declared.number,
            line,
        })?;
        self.sizes.push(Size {
            operator: self.operator.unwrap_or(0),
            len: declared.len,
            depth: declared.depth,
        })?;
        self.buffers_here.add(declared.number)?;
        Ok(())
    }

    /// thread_(MEDIUM)
    pub fn thread_line(
        &mut self,
        known: &Known,
        line: u32,
        arguments: &Arguments,
    ) -> Result<(), CodeError>
        ensures { Steps result (reading self.new)
            (thread_line known.now.archi (reading self.old) line arguments.now) }
    {
        let joined = known.next_medium(self.alloc, line, self.media.as_slice(), arguments)?;
        self.media.push(joined.medium)?;
        self.stage = Stage::Prologue;
        self.medium = Some(joined.medium);
        Ok(())
    }

    /// main_
    pub fn main_line(&mut self, line: u32, arguments: &Arguments) -> Result<(), CodeError>
        ensures { Steps result (reading self.new)
            (main_line (reading self.old) line arguments.now) }
    {
        if !arguments.is_absent() {
            return Err(bad_argument(line));
        }
        self.stage = Stage::Prologue;
        self.medium = None;
        self.spawned.clear();
        self.awaited.clear();
        Ok(())
    }

    /// spawn_thread_(MEDIUM)
    pub fn spawn_line(
        &mut self,
        known: &Known,
        line: u32,
        arguments: &Arguments,
    ) -> Result<(), CodeError>
        ensures { Steps result (reading self.new)
            (spawn_line known.now.archi (reading self.old) line arguments.now) }
    {
        let threads = self.media.as_slice();
        let medium = known.thread(
            self.alloc,
            line,
            threads,
            self.spawned.as_slice(),
            arguments,
        )?;
        self.spawned.push(medium)?;
        Ok(())
    }

    /// wait_endthread_(MEDIUM)
    pub fn wait_line(
        &mut self,
        known: &Known,
        line: u32,
        arguments: &Arguments,
    ) -> Result<(), CodeError>
        ensures { Steps result (reading self.new)
            (wait_line known.now.archi (reading self.old) line arguments.now) }
    {
        let threads = self.media.as_slice();
        let medium = known.thread(
            self.alloc,
            line,
            threads,
            self.awaited.as_slice(),
            arguments,
        )?;
        self.awaited.push(medium)?;
        Ok(())
    }

    /// loop_
    pub fn loop_line(&mut self, line: u32, arguments: &Arguments) -> Result<(), CodeError>
        ensures { Steps result (reading self.new)
            (loop_line (reading self.old) line arguments.now) }
    {
        if !arguments.is_absent() {
            return Err(bad_argument(line));
        }
        self.stage = Stage::Turn;
        Ok(())
    }

    /// endloop_
    pub fn end_loop_line(&mut self, line: u32, arguments: &Arguments) -> Result<(), CodeError>
        ensures { Steps result (reading self.new)
            (end_loop_line (reading self.old) line arguments.now) }
    {
        if !arguments.is_absent() {
            return Err(bad_argument(line));
        }
        self.stage = Stage::Ended;
        Ok(())
    }

    /// endthread_
    pub fn end_thread_line(&mut self, line: u32, arguments: &Arguments) -> Result<(), CodeError>
        ensures { Steps result (reading self.new)
            (end_thread_line (reading self.old) line arguments.now) }
    {
        if !arguments.is_absent() {
            return Err(bad_argument(line));
        }
        let code = self.take_code();
        self.threads.push(code)?;
        self.stage = Stage::Threaded;
        Ok(())
    }

    /// endmain_
    pub fn end_main_line(&mut self, line: u32, arguments: &Arguments) -> Result<(), CodeError>
        ensures { Steps result (reading self.new)
            (end_main_line (reading self.old) line arguments.now) }
    {
        if !arguments.is_absent() {
            return Err(bad_argument(line));
        }
        let code = self.take_code();
        self.seqs.push(code)?;
        self.seqs.append(&mut self.threads)?;
        self.stage = Stage::Outside;
        Ok(())
    }

    /// The code of the sequence that began last, which is taken away.
    fn take_code(&mut self) -> WrittenCode
        ensures code { code_of result ≡ code_here (reading self.old) }
        ensures left { reading self.new ≡ record (reading self.old) { prologue = []; turn = [] } }
    {
        let prologue = mem::replace(&mut self.prologue, Vec::new(self.alloc));
        let turn = mem::replace(&mut self.turn, Vec::new(self.alloc));
        WrittenCode {
            seq: Seq {
                operator: self.operator.unwrap_or(0),
                medium: self.medium,
            },
            prologue: Items::new(prologue),
            turn: Items::new(turn),
        }
    }

    /// Adds an instruction, inside the loop or before it.
    pub fn add(&mut self, written: Written) -> Result<(), CodeError>
        ensures { Steps result (reading self.new)
            (Ok (with_instr (reading self.old) (instr_of written))) }
    {
        if is_turn(self.stage) {
            self.turn.push(written)?;
        } else {
            self.prologue.push(written)?;
        }
        Ok(())
    }

    /// Suc0_(q)
    pub fn suc0_line(&mut self, line: u32, arguments: &Arguments) -> Result<(), CodeError>
        ensures { Steps result (reading self.new)
            (pair_line (reading self.old) line (λ q. instr.Suc0 q) arguments.now) }
    {
        let pair = read_pair(self.alloc, line, &self.pairs_here, arguments)?;
        self.add(Written::Suc0(pair))
    }

    /// Suc1_(q)
    pub fn suc1_line(&mut self, line: u32, arguments: &Arguments) -> Result<(), CodeError>
        ensures { Steps result (reading self.new)
            (pair_line (reading self.old) line (λ q. instr.Suc1 q) arguments.now) }
    {
        let pair = read_pair(self.alloc, line, &self.pairs_here, arguments)?;
        self.add(Written::Suc1(pair))
    }

    /// Pre0_(q)
    pub fn pre0_line(&mut self, line: u32, arguments: &Arguments) -> Result<(), CodeError>
        ensures { Steps result (reading self.new)
            (pair_line (reading self.old) line (λ q. instr.Pre0 q) arguments.now) }
    {
        let pair = read_pair(self.alloc, line, &self.pairs_here, arguments)?;
        self.add(Written::Pre0(pair))
    }

    /// Pre1_(q)
    pub fn pre1_line(&mut self, line: u32, arguments: &Arguments) -> Result<(), CodeError>
        ensures { Steps result (reading self.new)
            (pair_line (reading self.old) line (λ q. instr.Pre1 q) arguments.now) }
    {
        let pair = read_pair(self.alloc, line, &self.pairs_here, arguments)?;
        self.add(Written::Pre1(pair))
    }

    /// send_(bN,TO)
    pub fn send_line(
        &mut self,
        known: &Known,
        line: u32,
        arguments: &Arguments,
    ) -> Result<(), CodeError>
        ensures { Steps result (reading self.new)
            (transfer_line known.now.archi (reading self.old) line (λ b o. instr.Send b o) arguments.now) }
    {
        let moved = read_transfer(self.alloc, known, line, &self.buffers_here, arguments)?;
        self.add(Written::Send {
            buffer: moved.buffer,
            to: moved.operator,
        })
    }

    /// recv_(bN,FROM)
    pub fn recv_line(
        &mut self,
        known: &Known,
        line: u32,
        arguments: &Arguments,
    ) -> Result<(), CodeError>
        ensures { Steps result (reading self.new)
            (transfer_line known.now.archi (reading self.old) line (λ b o. instr.Recv b o) arguments.now) }
    {
        let moved = read_transfer(self.alloc, known, line, &self.buffers_here, arguments)?;
        self.add(Written::Recv {
            buffer: moved.buffer,
            from: moved.operator,
        })
    }

    /// sync_(FROM,TO)
    pub fn sync_line(
        &mut self,
        known: &Known,
        line: u32,
        arguments: &Arguments,
    ) -> Result<(), CodeError>
        ensures { Steps result (reading self.new)
            (sync_line known.now.archi (reading self.old) line arguments.now) }
    {
        let ends = read_sync(self.alloc, known, line, arguments)?;
        self.add(Written::Sync {
            from: ends.from,
            to: ends.to,
        })
    }
}

/// Adds pairs that are declared at a line, and their operator.
pub fn add_pairs(
    pairs: &mut Vec<Numbered>,
    owners: &mut Vec<u32>,
    line: u32,
    operator: u32,
    numbers: &[u64],
) -> Result<(), OutOfMemory>
    ensures pairs { OnOk result
        (pairs.new.items ≡ pairs.old.items ++ map (numbered line) numbers.now) }
    ensures owners { OnOk result
        (owners.new.items ≡ owners.old.items ++ map (λ _. operator) numbers.now) }
{
    for number in numbers {
        pairs.push(Numbered {
            number: *number,
            line,
        })?;
        owners.push(operator)?;
    }
    Ok(())
}
