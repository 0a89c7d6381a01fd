//! Reports on sources.

ghost use Rattle.std.specs.Prelude.{◌≡◌};
ghost use Rattle.core_ir.specs.Valid.{IsValid};
ghost use Rattle.elab_pieces.specs.Program.{program_of};

use c_parser::parse;
use c_tokens::{Tokens, lex};
use c_tree::Unit;
use c_typed::Typed;
use c_typing::check;
use code_report::report;
use core_ir::{Program, valid};
use elab::elaborate;
use safe_locals::safe_all;
use sensitivity::classes;
use std::alloc::Global;
use std::test::Fail;

/// The report on a source whose program is this one, which is valid.
fn report_on(alloc: Global, typed: &Typed, program: &Program) -> Result<Vec<u8>, Fail>
    requires valid { IsValid program.now }
    requires program { program.now ≡ program_of typed.now }
{
    let classes = classes(alloc, &program.structs)?;
    let safe = safe_all(alloc, program)?;
    Ok(report(alloc, typed, program, &classes, &safe)?)
}

/// The report on a typed source.
fn report_of_typed(alloc: Global, typed: &Typed) -> Result<Vec<u8>, Fail> {
    let program = elaborate(alloc, typed)?;
    if !valid(&program) {
        return Err(Fail::from("the program isn't valid"));
    }
    report_on(alloc, typed, &program)
}

/// The report on a source that was parsed.
fn report_of_unit(alloc: Global, unit: &Unit) -> Result<Vec<u8>, Fail> {
    if unit.items.len() > 100_000 {
        return Err(Fail::from("many items"));
    }
    let typed = check(alloc, unit)?;
    report_of_typed(alloc, &typed)
}

/// The report on a source that was cut into tokens.
fn report_of_tokens(alloc: Global, tokens: &Tokens) -> Result<Vec<u8>, Fail> {
    if tokens.len() > 100_000 {
        return Err(Fail::from("many tokens"));
    }
    let unit = parse(alloc, tokens)?;
    report_of_unit(alloc, &unit)
}

/// The report on a source.
fn report_of(alloc: Global, source: &[u8]) -> Result<Vec<u8>, Fail> {
    if source.len() > 100_000 {
        return Err(Fail::from("a long source"));
    }
    let tokens = lex(alloc, source)?;
    report_of_tokens(alloc, &tokens)
}

/// Sources, and their reports.
const REPORTS: [(&str, &str); 10] = [
    // A table of functions, as in the first run of the program.
    (
        "void (*h)(void);\nvoid a(void){print(1);}\nvoid b(void){print(2);}\nint main(void){h=a;h();return 0;}\n",
        "global h 128 1\nfunction 0 a 3 0\nfunction 1 b 3 0\nfunction 2 main 11 3\n",
    ),
    // Structs: what their members reach, and one without a body.
    (
        "struct n{struct n*next;int v;}; struct m{struct m*next;char*s;}; int main(void){return 0;}",
        "struct n regular\nstruct m sensitive\nfunction 0 main 3 0\n",
    ),
    (
        "struct t;struct t*p;int main(void){return 0;}",
        "struct t universal\nglobal p 128 1\nfunction 0 main 3 0\n",
    ),
    // Global variables, one behind the other. Functions, types and strings have no such line.
    (
        "int ((g)),a[2];int k(int);char*s=\"ab\";typedef int z;int main(void){return 0;}",
        "global g 128 1\nglobal a 129 2\nglobal s 131 1\nfunction 0 main 3 0\n",
    ),
    // Frame locals: at constant indices, at a variable one, one behind the end, kept by another.
    (
        "void f(void){int a[2];int b[2];int i;i=0;a[0]=1;b[i]=2;} int main(void){return 0;}",
        "function 0 f 17 0\nlocal a safe\nlocal b unsafe\nfunction 1 main 3 0\n",
    ),
    (
        "void f(void){int a[2];a[2]=1;}int main(void){return 0;}",
        "function 0 f 9 0\nlocal a unsafe\nfunction 1 main 3 0\n",
    ),
    (
        "void f(int x){int*p;p=&x;}int main(void){return 0;}",
        "function 0 f 9 0\nlocal x unsafe\nfunction 1 main 3 0\n",
    ),
    // Checks: a touch of a code pointer and the call; touches on the way to a `char`.
    (
        "void(*h)(void);void f(void){h();}int main(void){return 0;}",
        "global h 128 1\nfunction 0 f 5 2\nfunction 1 main 3 0\n",
    ),
    (
        "char*s;void f(void){*s=0;}int main(void){return 0;}",
        "global s 128 1\nfunction 0 f 8 2\nfunction 1 main 3 0\n",
    ),
    // At a safe local the call alone.
    (
        "void a(void){}void f(void){void(*t[2])(void);t[0]=a;t[1]();}int main(void){return 0;}",
        "function 0 a 1 0\nfunction 1 f 15 1\nlocal t safe\nfunction 2 main 3 0\n",
    ),
];

#[test]
fn sources_have_their_reports(rt: HostRuntime) -> Result<(), Fail> {
    for (source, text) in &REPORTS {
        let report = report_of(rt.alloc(), source.as_bytes())?;
        assert_eq!(rt; report.as_slice(), text.as_bytes(), "of {source}");
    }
    Ok(())
}
