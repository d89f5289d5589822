// Laws of the machine of a mutex. The function takes and answers nothing: its contract is the laws.

ghost use Rattle.mutex_cores.specs.Laws.{LockBlocked, LockIsGranted, MutexWaits};

/// When a request may be granted, and what a grant does.
pub fn mutexes_are_granted()
    // A request may not be granted exactly where nothing is asked, or where it is a lock and a thread owns the mutex.
    ensures lock_blocked { LockBlocked }
    // A lock that may be granted finds no owner and leaves the thread as the owner; an unlock or an init leaves the mutex free, and a
    // destroy unset; right after a lock no other may be granted.
    ensures lock_is_granted { LockIsGranted }
    // Each number of the register is a mutex's word, so every reading shows a mutex; and nothing is offered to who asks nothing.
    ensures mutex_waits { MutexWaits }
{}
