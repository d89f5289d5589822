// What holds of the machine of the thread ids. The function takes and answers nothing: its contract is the laws.

ghost use Rattle.thread_id_cores.specs.Laws.{FinishesAlike, ThreadIdsWait, JoinsAlike, RunnersStay, RunnersStayInCycle, RunnersStayTold};

/// What a thread is told of the table, and which words change it.
pub fn thread_ids_are_told()
    // A grant to another thread leaves what a thread is told that runs.
    ensures runners_stay { RunnersStay }
    ensures runners_stay_in_cycle { RunnersStayInCycle }
    ensures runners_stay_told { RunnersStayTold }
    // Any reading shows some table, and nothing is offered to who asks nothing.
    ensures thread_ids_wait { ThreadIdsWait }
    // Words that an operation does not use change nothing.
    ensures joins_alike { JoinsAlike }
    ensures finishes_alike { FinishesAlike }
{}
