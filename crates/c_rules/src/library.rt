// The functions that are known without an include.

ghost use Rattle.std.specs.Prelude.{◌≡◌};

/// A function of the library.
#[derive(Clone, Copy)]
pub enum LibraryFunction {
    Print,
    Create,
    Join,
    Exit,
    MutexInit,
    MutexDestroy,
    MutexLock,
    MutexUnlock,
    BarrierInit,
    BarrierDestroy,
    BarrierWait,
}

impl LibraryFunction {
    ghost use Rattle.c_rules.specs.Library as spec;

    /// Each function once.
    pub const ALL: [LibraryFunction; 11] = [
        LibraryFunction::Print,
        LibraryFunction::Create,
        LibraryFunction::Join,
        LibraryFunction::Exit,
        LibraryFunction::MutexInit,
        LibraryFunction::MutexDestroy,
        LibraryFunction::MutexLock,
        LibraryFunction::MutexUnlock,
        LibraryFunction::BarrierInit,
        LibraryFunction::BarrierDestroy,
        LibraryFunction::BarrierWait,
    ];

    /// Its name.
    fn name(self) -> &'static str
        ensures { result.now ≡ spec.name_of self }
    {
        match self {
            LibraryFunction::Print => "printf",
            LibraryFunction::Create => "pthread_create",
            LibraryFunction::Join => "pthread_join",
            LibraryFunction::Exit => "pthread_exit",
            LibraryFunction::MutexInit => "pthread_mutex_init",
            LibraryFunction::MutexDestroy => "pthread_mutex_destroy",
            LibraryFunction::MutexLock => "pthread_mutex_lock",
            LibraryFunction::MutexUnlock => "pthread_mutex_unlock",
            LibraryFunction::BarrierInit => "pthread_barrier_init",
            LibraryFunction::BarrierDestroy => "pthread_barrier_destroy",
            LibraryFunction::BarrierWait => "pthread_barrier_wait",
        }
    }

    /// Whether it may be called with so many arguments; printf takes any number.
    pub fn takes(self, count: usize) -> bool
        ensures { result ≡ spec.takes self count }
    {
        match self {
            LibraryFunction::Print => true,
            LibraryFunction::Create => count == 4,
            LibraryFunction::BarrierInit => count == 3,
            LibraryFunction::Join | LibraryFunction::MutexInit => count == 2,
            _ => count == 1,
        }
    }

    /// The function of that name.
    #[tactic(auto, unfolding(crate::specs::Library::function_named))]
    pub fn from_name(name: &[u8]) -> Option<LibraryFunction>
        ensures { result ≡ spec.function_named name.now }
    {
        LibraryFunction::ALL
            .iter()
            .copied()
            .find(|f| f.name().as_bytes() == name)
    }
}
