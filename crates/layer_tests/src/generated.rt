// The text of a program that a number gives, as `program_text` writes it.

use generated_text::program_text;
use std::alloc::Global;
use std::process::Abort;
use std::test::Fail;

/// For seed 0 the one line is of kind 6, with a.
fn published() -> &'static str {
    "#include <stdio.h>\n#include <pthread.h>\npthread_t t[2];\npthread_mutex_t m;\nunsigned s;\nunsigned g[2];\n\
    void *worker(void *arg) {\n  long id = (long)arg;\n  unsigned a = (unsigned)id + 1, b = 2, c = 3, d = 4;\n  \
    g[id] = a;\n  g[id] = a ^ b ^ c ^ d;\n  pthread_mutex_lock(&m);\n  s += g[id];\n  pthread_mutex_unlock(&m);\n  \
    return NULL;\n}\nint main(void) {\n  int i;\n  pthread_mutex_init(&m, NULL);\n  for (i = 0; i < 2; i++) {\n    \
    pthread_create(&t[i], NULL, worker, (void *)(long)i);\n  }\n  for (i = 0; i < 2; i++) {\n    \
    pthread_join(t[i], NULL);\n  }\n  for (i = 0; i < 2; i++) {\n    printf(\"%u\\n\", g[i]);\n  }\n  printf(\"%u\\n\
    \", s);\n  pthread_mutex_destroy(&m);\n  return 0;\n}\n"
}

fn is_published(alloc: Global) -> Result<bool, Fail> {
    let text = program_text(alloc, 0, 2, 1)?;
    Ok(text.as_slice() == published().as_bytes())
}

#[test]
fn writes_the_text_of_seed_zero(rt: HostRuntime) -> Result<(), Fail> {
    let alloc = rt.alloc();
    if !is_published(alloc)? {
        rt.panic("the text of seed 0 is another one");
    }
    Ok(())
}
