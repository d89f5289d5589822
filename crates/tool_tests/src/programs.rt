// Programs of which several tests speak.

pub const MAIN: &str = "int main(void){return 0;}";

pub const ENDLESS: &str = "int main(void){while (1) ; return 0;}";

pub const COUNTING: &str =
    "int main(void){int i; for (i = 1; i < 4; i++) printf(\"%d\\n\", i); return 0;}";

/// `main` and its thread write one global, which nothing orders.
pub const RACING: &str =
    "pthread_t t; int n; void *w(void *p){n = 1; return NULL;} int main(void){pthread_create(&t, NULL, w, NULL); n = 2; pthread_join(t, NULL); return 0;}";

/// Three threads add 1 each.
pub const ADDING: &str =
    "pthread_t t[3]; pthread_mutex_t m = PTHREAD_MUTEX_INITIALIZER; int s; void *w(void *arg){pthread_mutex_lock(&m); s = s + 1; pthread_mutex_unlock(&m); \
    return NULL;} int main(void){int i; for (i = 0; i < 3; i++) pthread_create(&t[i], NULL, w, NULL); for (i = 0; i < 3; i++) pthread_join(t[i], NULL); \
    printf(\"%d\\n\", s); return 0;}";

pub fn adding() -> &'static str {
    ADDING
}

/// As many threads as a program may create: each writes an element of its own, and adds it to a sum under a mutex.
pub fn sixty_three() -> &'static str {
    "#include <stdio.h>\n#include <pthread.h>\npthread_t t[63];\npthread_mutex_t m;\nunsigned s;\nunsigned g[63];\nvoid *worker(void *arg) {\n  \
    long id = (long)arg;\n  unsigned a = (unsigned)id + 1, b = 2, c = 3, d = 4;\n  g[id] = a;\n  g[id] = a ^ b ^ c ^ d;\n  \
    pthread_mutex_lock(&m);\n  s += g[id];\n  pthread_mutex_unlock(&m);\n  return NULL;\n}\nint main(void) {\n  int i;\n  \
    pthread_mutex_init(&m, NULL);\n  for (i = 0; i < 63; i++) {\n    pthread_create(&t[i], NULL, worker, (void *)(long)i);\n  }\n  \
    for (i = 0; i < 63; i++) {\n    pthread_join(t[i], NULL);\n  }\n  for (i = 0; i < 63; i++) {\n    printf(\"%u\\n\", g[i]);\n  }\n  \
    printf(\"%u\\n\", s);\n  pthread_mutex_destroy(&m);\n  return 0;\n}\n"
}

/// Two threads print a line each, in either order.
pub const PRINTING: &str =
    "pthread_t t[2]; void *w(void *arg){if ((long)arg == 0) printf(\"a\\n\"); else printf(\"b\\n\"); return NULL;} int main(void){int i; \
    for (i = 0; i < 2; i++) pthread_create(&t[i], NULL, w, (void *)(long)i); for (i = 0; i < 2; i++) pthread_join(t[i], NULL); return 0;}";

/// Main hands a global to a thread, which triples it.
pub fn tripled() -> &'static str {
    "#include <pthread.h>\n#include <stdio.h>\npthread_t t;\nunsigned x;\n\nvoid *worker(void *arg) {\n  x = x * 3u;\n  return NULL;\n}\n\n\
    int main(void) {\n  x = 7;\n  pthread_create(&t, NULL, worker, NULL);\n  pthread_join(t, NULL);\n  printf(\"%u\\n\", x);\n  return 0;\n}\n"
}

/// What its Verilog is made of.
pub fn tripled_report() -> &'static str {
    "global 0 1 32 unsigned x\nasks 0 main\nasks 0 worker\nfunction main\nregisters 0\nvariable 0 64 signed -\nvariable 1 64 signed -\nblock 0 1 2\n\
    operation 0 write_global 0 1\nindex constant 0 32 signed\nstored constant 7 32 signed 32 unsigned\nworks 0 1\n\
    final 1 constant 0 64 signed 64 signed\njump 1\nact 1 2\ncreate\nhanded constant 1 64 signed\nhanded variable 1 64 signed\nblock 2 1 1\njump 3\n\
    act 3 4\njoin\nhanded constant 1 64 signed\nblock 4 2 1\noperation 0 read_global 0 1\nindex constant 0 32 signed\nworks 0 2\n\
    final 0 value 0 32 unsigned 32 unsigned 64 signed\njump 5\nact 5 6\nprint 0\nhanded variable 0 64 signed\nact 6 0\nreturn\nfunction worker\n\
    registers 1\nargument 0\nvariable 0 64 signed arg\nvariable 1 64 signed -\nvariable 2 64 signed -\nblock 0 5 1\noperation 0 read_global 0 1\n\
    index constant 0 32 signed\nworks 0 2\nregister 0\noperation 1 multiply 32 unsigned\nleft value 0 32 unsigned\nright constant 3 32 unsigned\n\
    works 2 2\nmultiplier 0 32\nregister 0\noperation 2 write_global 0 1\nindex constant 0 32 signed\nstored value 1 32 unsigned 32 unsigned\n\
    works 4 1\njump 1\nact 1 0\nreturn\nmodule fn_main\nflipflops 4 stage_8\nflipflops 1 state_9\nflipflops 1 beat\nflipflops 64 variable_11\n\
    flipflops 64 variable_12\nflipflops 1 granted_13\nmodule fn_worker\nflipflops 3 stage_8\nflipflops 3 state_9\nflipflops 1 beat\n\
    flipflops 64 arg_11\nflipflops 64 variable_12\nflipflops 64 variable_13\nflipflops 32 kept_14\nflipflops 1 granted_15\nmodule arbiter\n\
    module bank_x_0\nflipflops 32 state_11\nflipflops 32 state_12\nmemory 1 32 bank_x_0\nmodule forkjoin\nmemory 2 2 status_0\n\
    memory 2 64 argument_0\nmodule printer\nwrite 0 %0d\\n\nmodule top\ninstance t_0 fn_main\ninstance t_1 fn_worker\ninstance u_x_0 bank_x_0\n\
    instance ufork_0 forkjoin\ninstance uprinter_0 printer\ninstance arbiter_0 arbiter\ninstance arbiter_1 arbiter\ninstance arbiter_2 arbiter\n\
    module top_rr\nflipflops 4 counter_1\ninstance dut_0 top\ncore 0 u_x_0\ncore 1 ufork_0\ncore 2 uprinter_0\n"
}
