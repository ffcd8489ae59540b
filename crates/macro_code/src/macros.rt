//! The macros by which lines begin.
ghost use Rattle.std.specs.Prelude.{◌≡◌};

/// A macro. A sequence's lines stand between `thread_` and `endthread_` or between `main_` and
/// `endmain_`, its loop between `loop_` and `endloop_`.
#[derive(Clone, Copy, Debug, PartialEq, Eq)]
pub enum Macro {
    Processor,
    Semaphores,
    Alloc,
    Thread,
    EndThread,
    Main,
    EndMain,
    SpawnThread,
    WaitEndThread,
    Loop,
    EndLoop,
    Suc0,
    Suc1,
    Pre0,
    Pre1,
    Send,
    Recv,
    Sync,
}

impl Macro {
    ghost use Rattle.macro_code.specs.Macros.{word_of};

    /// Its name in the text.
    pub fn word(self) -> &'static str
        ensures { result.now ≡ word_of self }
    {
        match self {
            Macro::Processor => "processor_",
            Macro::Semaphores => "semaphores_",
            Macro::Alloc => "alloc_",
            Macro::Thread => "thread_",
            Macro::EndThread => "endthread_",
            Macro::Main => "main_",
            Macro::EndMain => "endmain_",
            Macro::SpawnThread => "spawn_thread_",
            Macro::WaitEndThread => "wait_endthread_",
            Macro::Loop => "loop_",
            Macro::EndLoop => "endloop_",
            Macro::Suc0 => "Suc0_",
            Macro::Suc1 => "Suc1_",
            Macro::Pre0 => "Pre0_",
            Macro::Pre1 => "Pre1_",
            Macro::Send => "send_",
            Macro::Recv => "recv_",
            Macro::Sync => "sync_",
        }
    }
}
