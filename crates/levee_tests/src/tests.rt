//! Whole jobs with the texts that they give, worked by hand.
use levee_top::{Status, levee};
use lv_base::{MemSink, MemSource, VecSink, VecSource};
use std::alloc::Global;
use std::process::Abort;
use std::test::Fail;

const CALLS: &str =
    "void (*h)(void);\nvoid a(void){print(1);}\nvoid b(void){print(2);}\nint main(void){h=a;h();return 0;}\n%%\n";

const BRIEF: &str =
    "0 call 1 2 0\n0 icall 2 0 7 at 128\n0 print 1\n0 return 2 2 8\n0 return 1 3 1\n0 end\n";

const FULL: &str =
    "0 call 1 2 0\n0 steps 2\n0 look 2 yes\n0 put 128 code 0\n0 steps 1\n0 look 2 yes\n0 get 128 code 0\n0 icall 2 0 7 at 128\n0 steps 1\n0 print 1\n0 return 2 2 8\n0 steps 1\n0 return 1 3 1\n0 store 96 1\n0 end\n";

const USAGE: &str =
    "usage: levee check | run [--full] | plain [--full] | gen K [--job] | threads T N [--full]\n";

/// The words of a list.
fn words(alloc: Global, list: &[&str]) -> Result<Vec<String>, Fail> {
    let mut words = Vec::new(alloc);
    for word in list {
        words.push(String::from_str(alloc, word)?)?;
    }
    Ok(words)
}

/// The text of a job that is a source and a script, whose status is compared.
fn text_of(
    rt: &(impl Abort + AllocGlobal),
    list: &[&str],
    source: &str,
    script: &str,
    status: Status,
) -> Result<Vec<u8>, Fail> {
    let alloc = rt.alloc();
    let words = words(alloc, list)?;
    let mut job = Vec::from_slice(alloc, source.as_bytes())?;
    job.extend_from_slice(script.as_bytes())?;
    let mut source = VecSource::new(job);
    let mut sink = VecSink::new(alloc);
    let answer = levee(alloc, &words, &mut source, &mut sink);
    assert_eq!(rt; answer, status, "the status of {script:?}");
    Ok(Vec::from_slice(alloc, sink.bytes())?)
}

/// Runs a job that is a source and a script, and compares its status and text.
fn expect(
    rt: &(impl Abort + AllocGlobal),
    list: &[&str],
    source: &str,
    script: &str,
    status: Status,
    text: &str,
) -> Result<(), Fail> {
    let answer = text_of(rt, list, source, script, status)?;
    assert_eq!(rt;
        answer.as_slice(),
        text.as_bytes(),
        "the text of {script:?}"
    );
    Ok(())
}

/// Whether the part stands somewhere in the text.
fn contains(text: &[u8], part: &[u8]) -> bool {
    (0..text.len()).any(|from| text[from..].starts_with(part))
}

#[test]
fn transfers_stay_as_stored(rt: HostRuntime) -> Result<(), Fail> {
    let overwritten =
        "0 call 1 2 0\nw 128 67108865\n0 icall 2 0 7 at 128\n0 print 1\n0 return 2 2 8\n0 return 1 3 1\n0 end\n";
    let return_place =
        "0 call 1 2 0\n0 icall 2 0 7 at 128\nw 100663298 0\n0 print 1\n0 return 2 2 8\n0 return 1 3 1\n0 end\n";
    let table = [
        ("run", "t 0 15\n", BRIEF),
        ("run", "t 0 5\nw 128 67108865\nt 0 10\n", overwritten),
        ("run", "t 0 9\nw 100663298 0\nt 0 6\n", return_place),
        ("run", "", ""),
    ];
    for (word, script, text) in table {
        expect(&rt, &[word], CALLS, script, Status::Done, text)?;
    }
    expect(
        &rt,
        &["run", "--full"],
        CALLS,
        "t 0 15\n",
        Status::Done,
        FULL,
    )
}

#[test]
fn a_corrupted_integer_is_read(rt: HostRuntime) -> Result<(), Fail> {
    let source = "int x; int main(void){x=7;print(x);return 0;}\n%%\n";
    let text =
        "0 call 1 0 0\n0 steps 3\n0 store 128 7\nw 128 9\n0 steps 2\n0 load 128 9\n0 print 9\n0 steps 1\n0 return 1 1 1\n0 store 96 1\n0 end\n";
    let script = "t 0 5\nw 128 9\nt 0 10\n";
    expect(&rt, &["run", "--full"], source, script, Status::Done, text)
}

#[test]
fn an_unset_pointer_stops(rt: HostRuntime) -> Result<(), Fail> {
    let source = "void (*h)(void); int main(void){h();return 0;}\n%%\n";
    let text = "0 call 1 0 0\n0 stop code\n";
    expect(&rt, &["run"], source, "t 0 10\n", Status::Violation, text)
}

#[test]
fn endless_recursion_stops(rt: HostRuntime) -> Result<(), Fail> {
    let alloc = rt.alloc();
    let mut text = String::from_str(alloc, "0 call 1 1 0\n")?;
    for depth in 2..4096u32 {
        text.push_str(format!(in alloc; "0 call {depth} 0 0\n")?.as_str())?;
    }
    text.push_str("0 stop depth\n")?;
    let source = "void r(void){r();} int main(void){r();return 0;}\n%%\n";
    expect(
        &rt,
        &["run"],
        source,
        "t 0 5000\n",
        Status::Done,
        text.as_str(),
    )
}

#[test]
fn a_zero_divisor_stops(rt: HostRuntime) -> Result<(), Fail> {
    let source = "int main(void){print(1/0);return 0;}\n%%\n";
    let text = "0 call 1 0 0\n0 stop divide\n";
    expect(&rt, &["run"], source, "t 0 9\n", Status::Done, text)
}

const TABLE: &str =
    "struct op{int n;void(*f)(void);};\nstruct op t[4];\nint i;\nvoid a(void){print(1);}\nint main(void){t[3].f=a;t[i].f();return 0;}\n%%\n";

const USED_AFTER_FREE: &str =
    "struct S{void(*f)(void);}; struct S*p; int main(void){p=malloc(sizeof(struct S));free(p);p->f();return 0;}\n%%\n";

const FREED_TWICE: &str =
    "struct S{void(*f)(void);}; struct S*p; int main(void){p=malloc(sizeof(struct S));free(p);free(p);return 0;}\n%%\n";

const FORGED: &str =
    "struct S{void(*f)(void);}; int buf[8]; int main(void){((struct S*)buf)->f();return 0;}\n%%\n";

#[test]
fn checks_stop_by_name(rt: HostRuntime) -> Result<(), Fail> {
    let inside =
        "w 136 3\n0 call 1 1 0\n0 icall 2 0 15 at 135\n0 print 1\n0 return 2 1 16\n0 return 1 2 1\n0 end\n";
    expect(
        &rt,
        &["run"],
        TABLE,
        "w 136 3\nt 0 30\n",
        Status::Done,
        inside,
    )?;
    let table = [
        (
            TABLE,
            "w 136 4\nt 0 30\n",
            "w 136 4\n0 call 1 1 0\n0 stop bounds\n",
        ),
        (USED_AFTER_FREE, "t 0 60\n", "0 call 1 0 0\n0 stop dead\n"),
        (FREED_TWICE, "t 0 60\n", "0 call 1 0 0\n0 stop free\n"),
        (FORGED, "t 0 30\n", "0 call 1 0 0\n0 stop bare\n"),
    ];
    for (source, script, text) in table {
        expect(&rt, &["run"], source, script, Status::Violation, text)?;
    }
    Ok(())
}

#[test]
fn the_full_text_names_objects(rt: HostRuntime) -> Result<(), Fail> {
    let table = [
        (USED_AFTER_FREE, "0 alloc 1 1026\n"),
        (USED_AFTER_FREE, "0 put 128 based 65664 65664 65665 1026\n"),
        (USED_AFTER_FREE, "0 free 1026 yes\n"),
        (USED_AFTER_FREE, "0 look 1026 no\n0 stop dead\n"),
        (FREED_TWICE, "0 free 1026 no\n0 stop free\n"),
    ];
    for (source, part) in table {
        let text = text_of(
            &rt,
            &["run", "--full"],
            source,
            "t 0 60\n",
            Status::Violation,
        )?;
        assert!(rt; contains(text.as_slice(), part.as_bytes()), "{part:?}");
    }
    Ok(())
}

const JOINED: &str =
    "int x; void w(void*a){int*q;q=a;*q=5;} int main(void){int t;t=spawn(w,&x);join(t);print(x);return 0;}\n%%\n";

const TWO_STORES: &str =
    "void(*h)(void); void a(void){print(1);} void b(void){print(2);} void w(void*x){h=b;} int main(void){h=a;spawn(w,0);h();return 0;}\n%%\n";

const STARTED: &str =
    "void u(void*x){print(1);} void v(void*x){print(2);} int main(void){spawn(u,0);return 0;}\n%%\n";

const SIXTEEN: &str =
    "void w(void*x){} int main(void){int i;for(i=0;i<15;i++)spawn(w,0);print(spawn(w,0));print(malloc(16384)!=0);print(malloc(16385)==0);return 0;}\n%%\n";

#[test]
fn threads_run_as_scheduled(rt: HostRuntime) -> Result<(), Fail> {
    let table = [
        (
            JOINED,
            "rr 2 24\n",
            "0 call 1 1 0\n1 start 0 at 66\n1 end\n0 print 5\n0 return 1 2 1\n0 end\n",
        ),
        (
            TWO_STORES,
            "t 0 21\nt 1 7\n",
            "0 call 1 3 0\n0 icall 2 0 13 at 128\n0 print 1\n0 return 2 3 14\n0 return 1 4 1\n0 end\n1 start 2 at 66\n1 end\n",
        ),
        (
            TWO_STORES,
            "t 0 11\nt 1 7\nt 0 10\n",
            "0 call 1 3 0\n1 start 2 at 66\n1 end\n0 icall 2 1 13 at 128\n0 print 2\n0 return 2 3 14\n0 return 1 4 1\n0 end\n",
        ),
        (
            STARTED,
            "t 0 7\nw 66 67108865\nt 1 5\nt 0 3\n",
            "0 call 1 2 0\nw 66 67108865\n1 start 0 at 66\n1 print 1\n1 end\n0 return 1 3 1\n0 end\n",
        ),
        (
            SIXTEEN,
            "t 0 1000\n",
            "0 call 1 1 0\n0 print -1\n0 print 1\n0 print 1\n0 return 1 2 1\n0 end\n",
        ),
    ];
    for (source, script, text) in table {
        expect(&rt, &["run"], source, script, Status::Done, text)?;
    }
    Ok(())
}

#[test]
fn inputs_are_read(rt: HostRuntime) -> Result<(), Fail> {
    let source = "int main(void){print(input(0)+input(5));return 0;}\n%%\n";
    let text = "0 call 1 0 0\n0 print -3\n0 return 1 1 1\n0 end\n";
    expect(&rt, &["run"], source, "in -3\nt 0 20\n", Status::Done, text)
}

const PLUGS: &str = "struct plug;
typedef void (*hook)(struct plug *, int);
struct plug { char *name; hook run; int total; };
struct plug tab[8];
int used;
int mu;
char log[64];
int at;
int same(char *a, char *b) {
  while (*a && *a == *b) { a++; b++; }
  return *a == *b;
}
void note(char *s) { while (*s && at < 63) { log[at] = *s; at++; s++; } }
void add(struct plug *p, int v) { p->total += v; note(\"a\"); }
void dbl(struct plug *p, int v) { p->total += 2 * v; note(\"d\"); }
void put(char *name, hook run) { tab[used].name = name; tab[used].run = run; used++; }
struct plug *find(char *name) {
  int i;
  for (i = 0; i < used; i++) if (same(tab[i].name, name)) return &tab[i];
  return 0;
}
void work(void *arg) {
  struct plug *p; int i;
  p = find(arg);
  for (i = 1; i <= 10; i++) { lock(&mu); p->run(p, i); unlock(&mu); }
}
int main(void) {
  int t;
  put(\"add\", add); put(\"dbl\", dbl);
  t = spawn(work, \"add\");
  work(\"dbl\");
  join(t);
  print(tab[0].total); print(tab[1].total); print(at);
  return 0;
}
%%
";

#[test]
fn a_table_of_plugs_runs(rt: HostRuntime) -> Result<(), Fail> {
    let text = text_of(&rt, &["run"], PLUGS, "rr 2 6000\n", Status::Done)?;
    for part in [
        "0 print 55\n0 print 110\n0 print 20\n",
        "0 end\n",
        "1 end\n",
    ] {
        assert!(rt; contains(text.as_slice(), part.as_bytes()), "{part:?}");
    }
    assert!(rt; !contains(text.as_slice(), b" stop ".as_slice()));
    Ok(())
}

#[test]
fn refusals_come_in_order(rt: HostRuntime) -> Result<(), Fail> {
    let table = [
        ("int x; x y;\n", "", "refused job\n"),
        ("/* x\n%%\n", "x\n", "refused lex comment 1\n"),
        (
            "int a=9223372036854775808;\n%%\n",
            "",
            "refused lex number 1\n",
        ),
        ("\nint @;\n%%\n", "", "refused lex byte 2\n"),
        ("int a=';\n%%\n", "", "refused lex text 1\n"),
        ("int x; x y;\n%%\n", "x\n", "refused syntax 1\n"),
        ("int a; int b; int c; int d\n%%\n", "", "refused syntax 3\n"),
        ("\n%%\n", "", "refused type 0 5\n"),
        ("int x;\n%%\n", "x\n", "refused type 1 5\n"),
        ("int main(void){return x;}\n%%\n", "", "refused type 0 1\n"),
        (
            "int a[65536]; int b; int main(void){return 0;}\n%%\n",
            "x\n",
            "refused limit globals\n",
        ),
        (CALLS, "t 16 1\n", "refused script 1\n"),
        (CALLS, "t 0 4000000\nt 0 1\n", "refused script long\n"),
        (CALLS, "rr 16 250001\n", "refused script long\n"),
        (CALLS, "t 0 4000000\nt 0 1\nx\n", "refused script 3\n"),
    ];
    for (source, script, text) in table {
        expect(&rt, &["run"], source, script, Status::Refused, text)?;
    }
    for words in [
        ["run", "now"],
        ["run", "run"],
        ["plain", "--full"],
        ["--full", "run"],
    ] {
        expect(&rt, &words, CALLS, "t 0 15\n", Status::Usage, USAGE)?;
    }
    expect(&rt, &[], CALLS, "t 0 15\n", Status::Usage, USAGE)
}

/// A job of this many bytes.
fn long_job(alloc: Global, len: usize) -> Result<Vec<u8>, Fail> {
    let mut job = vec![in alloc; b' '; len.saturating_sub(28)]?;
    job.extend_from_slice(b"int main(void){return 0;}\n%%")?;
    Ok(job)
}

#[test]
fn a_job_has_at_most_its_greatest_size(rt: HostRuntime) -> Result<(), Fail> {
    let alloc = rt.alloc();
    let words = words(alloc, &["run"])?;
    let table = [
        (1_048_576, Status::Done, ""),
        (1_048_577, Status::Refused, "refused job\n"),
    ];
    for (len, status, text) in table {
        let mut source = VecSource::new(long_job(alloc, len)?);
        let mut sink = VecSink::new(alloc);
        let answer = levee(alloc, &words, &mut source, &mut sink);
        assert_eq!(rt; answer, status, "{len} bytes");
        assert_eq!(rt; sink.bytes(), text.as_bytes(), "{len} bytes");
    }
    Ok(())
}

#[test]
fn faults_are_told(rt: HostRuntime) -> Result<(), Fail> {
    let alloc = rt.alloc();
    let words = words(alloc, &["run"])?;
    let mut job = Vec::from_slice(alloc, CALLS.as_bytes())?;
    job.extend_from_slice(b"t 0 15\n")?;

    let fails = Vec::from_slice(alloc, &[2])?;
    let mut source = VecSource::new(job);
    let mut sink = MemSink::new(alloc, 4096, 8, fails)?;
    let answer = levee(alloc, &words, &mut source, &mut sink);
    assert_eq!(rt; answer, Status::WriteFault);
    assert_eq!(rt; sink.bytes(), b"0 call 1".as_slice());

    for call in [1, 2] {
        let mut job = Vec::from_slice(alloc, CALLS.as_bytes())?;
        job.extend_from_slice(b"t 0 15\n")?;
        let fails = Vec::from_slice(alloc, &[call])?;
        let mut source = MemSource::new(job, 64, fails);
        let mut sink = VecSink::new(alloc);
        let answer = levee(alloc, &words, &mut source, &mut sink);
        assert_eq!(rt; answer, Status::ReadFault, "at call {call}");
        assert_eq!(rt; sink.bytes(), b"".as_slice(), "at call {call}");
    }
    Ok(())
}
