//! Specs, type words and parameters.

ghost use Rattle.std.specs.Prelude.{◌≡◌, ◌≤◌, ◌<◌, ◌+◌, ◌-◌, true, IfOk};
ghost use Rattle.c_tokens.specs.declared.token.Mark.TheVariants as mark;
ghost use Rattle.c_readers.specs.inner.Nests.{Nests, below};
ghost use Rattle.c_readers.specs.inner.Parser.{sees, separated};
ghost use Rattle.c_readers.specs.inner.Readers as reader;
ghost use Rattle.c_readers.specs.inner.Readers.{readers};
ghost use Rattle.c_readers.specs.inner.Reads.{Reads};

use crate::declarators::Declarators;
use c_readers::{Cursor, Failure, Grammar, Names, boxed, free_name, is_word, looks_named, name_of};
use c_tokens::{Keyword, Kind, Mark};
use c_tree::{Expr, MemberDecl, Param, Params, Spec, TypeWord};
use c_types::Name;
use sqlite_items::{Boxed, Items};
use std::alloc::Global;

impl<'n, F, G> Declarators<'n, F, G>
where
    F: Fn(Global, &Names, &mut Cursor<'_>, usize, usize) -> Result<(Boxed<Expr>, usize), Failure>
        + Copy,
    G: Fn(Global, &Names, &mut Cursor<'_>, usize) -> Result<(Params, usize), Failure> + Copy,
{
    /// One line of a struct's body.
    #[cycle(spec)]
    #[tactic(auto, unfolding(c_readers::specs::inner::Readers::member))]
    fn member(&self, tokens: &mut Cursor<'_>) -> Result<(Boxed<MemberDecl>, usize), Failure>
        requires nests { Nests self.now.grammar.depth (F.pre self.now.grammar.expr) (F.post self.now.grammar.expr) (G.pre self.now.grammar.params) (G.post self.now.grammar.params) }
        ensures reads { Reads (reader.member self.now.grammar.names.now (below self.now.grammar.names.now self.now.grammar.depth) tokens.old) result tokens.new }
        ensures height { IfOk result (λ m. m.1 < self.now.grammar.depth) }
    {
        if self.grammar.depth == 0 {
            return Err(Failure::Mismatch);
        }
        let inner = self.inner();
        let (spec, spec_height) = inner.spec(tokens, true)?;
        let (declarators, height) = inner.declarators(tokens)?;
        tokens.expect(Mark::Semicolon)?;
        let spec = spec.into_inner();
        let member = MemberDecl { spec, declarators };
        boxed(self.grammar.alloc, member, spec_height.max(height))
    }

    /// At least one member, and the `}` behind them.
    #[cycle(spec)]
    fn members(&self, tokens: &mut Cursor<'_>) -> Result<(Items<MemberDecl>, usize), Failure>
        requires nests { Nests self.now.grammar.depth (F.pre self.now.grammar.expr) (F.post self.now.grammar.expr) (G.pre self.now.grammar.params) (G.post self.now.grammar.params) }
        ensures reads { Reads (reader.members self.now.grammar.names.now (below self.now.grammar.names.now self.now.grammar.depth) tokens.old) result tokens.new }
        ensures height { IfOk result (λ ms. ms.1 < self.now.grammar.depth) }
    {
        let mut found = Items::new(self.grammar.alloc);
        let mut height = 0;
        for _turn in 0..tokens.left() {
            let (member, its_height) = self.member(tokens)?;
            found.push(member.into_inner())?;
            height = height.max(its_height);
            if tokens.eat(Mark::RightBrace) {
                return Ok((found, height));
            }
        }
        Err(Failure::Mismatch)
    }

    /// The body of the struct of this tag, whose brace was seen.
    #[cycle(spec)]
    #[tactic(auto, unfolding(c_readers::specs::inner::Readers::struct_body, c_readers::specs::inner::Parser::expect))]
    fn struct_body(
        &self,
        tokens: &mut Cursor<'_>,
        tag: Name,
    ) -> Result<(Boxed<Spec>, usize), Failure>
        requires nests { Nests self.now.grammar.depth (F.pre self.now.grammar.expr) (F.post self.now.grammar.expr) (G.pre self.now.grammar.params) (G.post self.now.grammar.params) }
        requires seen { sees mark.LeftBrace tokens.old ≡ true }
        ensures reads { Reads (reader.struct_body self.now.grammar.names.now (below self.now.grammar.names.now self.now.grammar.depth) tag tokens.old) result tokens.new }
        ensures height { IfOk result (λ s. s.1 ≤ self.now.grammar.depth) }
    {
        tokens.skip();
        let (members, height) = self.members(tokens)?;
        boxed(
            self.grammar.alloc,
            Spec::Struct(tag, Some(members)),
            1 + height,
        )
    }

    /// What stands behind `struct`: a tag, and a body where it may have one.
    #[cycle(spec)]
    fn struct_spec(
        &self,
        tokens: &mut Cursor<'_>,
        bodies: bool,
    ) -> Result<(Boxed<Spec>, usize), Failure>
        requires nests { Nests self.now.grammar.depth (F.pre self.now.grammar.expr) (F.post self.now.grammar.expr) (G.pre self.now.grammar.params) (G.post self.now.grammar.params) }
        ensures reads { Reads (reader.«struct» self.now.grammar.names.now (below self.now.grammar.names.now self.now.grammar.depth) bodies tokens.old) result tokens.new }
        ensures height { IfOk result (λ s. s.1 ≤ self.now.grammar.depth) }
    {
        let tag = free_name(self.grammar.alloc, self.grammar.names, tokens)?;
        if bodies && tokens.sees(Mark::LeftBrace) {
            self.struct_body(tokens, tag)
        } else {
            boxed(self.grammar.alloc, Spec::Struct(tag, None), 0)
        }
    }

    /// What stands in front of a declarator. It may have bodies of structs, where `bodies` says so.
    #[cycle(spec)]
    #[tactic(auto, using(crate::proofs::ReadersLemmas::spec_at), unfolding(c_readers::specs::inner::Readers::spec))]
    pub fn spec(
        &self,
        tokens: &mut Cursor<'_>,
        bodies: bool,
    ) -> Result<(Boxed<Spec>, usize), Failure>
        requires nests { Nests self.now.grammar.depth (F.pre self.now.grammar.expr) (F.post self.now.grammar.expr) (G.pre self.now.grammar.params) (G.post self.now.grammar.params) }
        ensures reads { Reads ((readers self.now.grammar.names.now self.now.grammar.depth).spec bodies tokens.old) result tokens.new }
        ensures height { IfOk result (λ s. s.1 ≤ self.now.grammar.depth) }
    {
        let Some(kind) = tokens.peek() else {
            return Err(Failure::Mismatch);
        };
        tokens.skip();
        match kind {
            Kind::Word(Keyword::Int) => boxed(self.grammar.alloc, Spec::Int, 0),
            Kind::Word(Keyword::Char) => boxed(self.grammar.alloc, Spec::Char, 0),
            Kind::Word(Keyword::Void) => boxed(self.grammar.alloc, Spec::Void, 0),
            Kind::Word(Keyword::Struct) => self.struct_spec(tokens, bodies),
            Kind::Name(name) => {
                if !self.grammar.names.contains(name.as_slice()) {
                    return Err(Failure::Mismatch);
                }
                let name = name_of(self.grammar.alloc, name)?;
                boxed(self.grammar.alloc, Spec::TypeName(name), 0)
            }
            _ => Err(Failure::Mismatch),
        }
    }

    /// A type in a cast or a `sizeof`.
    #[tactic(auto, unfolding(c_readers::specs::inner::Readers::type_word))]
    fn type_word(&self, tokens: &mut Cursor<'_>) -> Result<(Boxed<TypeWord>, usize), Failure>
        requires nests { Nests self.now.grammar.depth (F.pre self.now.grammar.expr) (F.post self.now.grammar.expr) (G.pre self.now.grammar.params) (G.post self.now.grammar.params) }
        ensures reads { Reads ((readers self.now.grammar.names.now self.now.grammar.depth).type_word tokens.old) result tokens.new }
        ensures height { IfOk result (λ t. t.1 ≤ self.now.grammar.depth) }
    {
        if self.grammar.depth == 0 {
            return Err(Failure::Mismatch);
        }
        let inner = self.inner();
        let (spec, spec_height) = inner.spec(tokens, false)?;
        let (declarator, height) = inner.grammar.abstract_declarator(tokens)?;
        let word = TypeWord {
            spec: spec.into_inner(),
            declarator: declarator.into_inner(),
        };
        boxed(self.grammar.alloc, word, 1 + spec_height.max(height))
    }

    /// One parameter.
    #[tactic(auto, unfolding(c_readers::specs::inner::Readers::param))]
    fn param(&self, tokens: &mut Cursor<'_>) -> Result<(Boxed<Param>, usize), Failure>
        requires nests { Nests self.now.grammar.depth (F.pre self.now.grammar.expr) (F.post self.now.grammar.expr) (G.pre self.now.grammar.params) (G.post self.now.grammar.params) }
        ensures reads { Reads (reader.param self.now.grammar.names.now (readers self.now.grammar.names.now self.now.grammar.depth).spec (readers self.now.grammar.names.now self.now.grammar.depth).declarator (readers self.now.grammar.names.now self.now.grammar.depth).abstract tokens.old) result tokens.new }
        ensures height { IfOk result (λ p. p.1 ≤ self.now.grammar.depth) }
    {
        let (spec, spec_height) = self.spec(tokens, true)?;
        if looks_named(self.grammar.names, tokens) {
            let (declarator, height) = self.declarator(tokens)?;
            let param = Param::Named(spec.into_inner(), declarator.into_inner());
            boxed(self.grammar.alloc, param, spec_height.max(height))
        } else {
            let (declarator, height) = self.grammar.abstract_declarator(tokens)?;
            let param = Param::Unnamed(spec.into_inner(), declarator.into_inner());
            boxed(self.grammar.alloc, param, spec_height.max(height))
        }
    }

    /// Parameters with commas between, at least one.
    fn param_list(&self, tokens: &mut Cursor<'_>) -> Result<(Items<Param>, usize), Failure>
        requires nests { Nests self.now.grammar.depth (F.pre self.now.grammar.expr) (F.post self.now.grammar.expr) (G.pre self.now.grammar.params) (G.post self.now.grammar.params) }
        ensures reads { Reads (separated (reader.param self.now.grammar.names.now (readers self.now.grammar.names.now self.now.grammar.depth).spec (readers self.now.grammar.names.now self.now.grammar.depth).declarator (readers self.now.grammar.names.now self.now.grammar.depth).abstract) tokens.old) result tokens.new }
        ensures height { IfOk result (λ ps. ps.1 ≤ self.now.grammar.depth) }
    {
        let mut found = Items::new(self.grammar.alloc);
        let mut height = 0;
        for _turn in 0..tokens.left() {
            let (param, its_height) = self.param(tokens)?;
            found.push(param.into_inner())?;
            height = height.max(its_height);
            if !tokens.eat(Mark::Comma) {
                return Ok((found, height));
            }
        }
        Err(Failure::Mismatch)
    }

    /// Whether `void` comes next and a closing parenthesis behind it.
    fn is_void_alone(&self, tokens: &Cursor<'_>) -> bool
        ensures { result ≡ reader.is_void_alone self.now.grammar.names.now (readers self.now.grammar.names.now self.now.grammar.depth).spec (readers self.now.grammar.names.now self.now.grammar.depth).declarator (readers self.now.grammar.names.now self.now.grammar.depth).abstract tokens.now }
    {
        match tokens.peek() {
            Some(kind) => is_word(kind, Keyword::Void)
                && tokens.sees_behind(Mark::RightParenthesis),
            None => false,
        }
    }

    /// The parameters of a function, to before the closing parenthesis.
    #[tactic(auto, unfolding(c_readers::specs::inner::Readers::params))]
    pub fn parameters(&self, tokens: &mut Cursor<'_>) -> Result<(Params, usize), Failure>
        requires nests { Nests self.now.grammar.depth (F.pre self.now.grammar.expr) (F.post self.now.grammar.expr) (G.pre self.now.grammar.params) (G.post self.now.grammar.params) }
        ensures reads { Reads ((readers self.now.grammar.names.now self.now.grammar.depth).params tokens.old) result tokens.new }
        ensures height { IfOk result (λ p. p.1 ≤ self.now.grammar.depth) }
    {
        if tokens.sees(Mark::RightParenthesis) {
            return Ok((Params::Nothing, 0));
        }
        if self.is_void_alone(tokens) {
            tokens.skip();
            return Ok((Params::VoidAlone, 0));
        }
        let (given, height) = self.param_list(tokens)?;
        Ok((Params::List(given), height))
    }
}

/// A type word of the depth below.
pub fn inner_type_word<'n, F, G>(
    grammar: &Grammar<'n, F, G>,
    tokens: &mut Cursor<'_>,
) -> Result<(Boxed<TypeWord>, usize), Failure>
where
    F: Fn(Global, &Names, &mut Cursor<'_>, usize, usize) -> Result<(Boxed<Expr>, usize), Failure>
        + Copy,
    G: Fn(Global, &Names, &mut Cursor<'_>, usize) -> Result<(Params, usize), Failure> + Copy,
    requires { Nests grammar.now.depth (F.pre grammar.now.expr) (F.post grammar.now.expr) (G.pre grammar.now.params) (G.post grammar.now.params) }
    ensures reads { Reads ((below grammar.now.names.now grammar.now.depth).type_word tokens.old) result tokens.new }
    ensures height { IfOk result (λ e. e.1 ≤ grammar.now.depth - 1) }
{
    if grammar.depth == 0 {
        return Err(Failure::Mismatch);
    }
    let inner = Declarators {
        grammar: grammar.inner(),
    };
    inner.type_word(tokens)
}
