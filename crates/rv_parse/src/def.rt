//! Definitions: functions and programs.
ghost use Rattle.std.specs.Prelude.{◌≡◌, ◌<◌, ◌≤◌, ◌^◌, ◌∷◌, [], List, length, IfErr, MatchResult};
ghost use Rattle.lang_model.specs.Limits.{more_limit};
ghost use Rattle.lang_model.specs.Taken.{TakesAt, Takes};
ghost use Rattle.lang_model.specs.Spelling.{OrLevel, Spelled, SpelledStmts, SpellsParams, SpellsDecl, SpellsDecls, SpellsHead, SpellsItem, domain_word};
ghost use Rattle.lang_model.specs.Stop.{NamePart, SignPart, MeaningPart, DomainPart, MoreDecls, MoreParams, BodyPart, ExprPart, StmtsPart, WordPart, program_parts};
ghost use Rattle.lang_model.specs.declared.token.Kind.TheVariants.{Keyword as KEYWORD, Word, Sign};
ghost use Rattle.lang_model.specs.declared.token.Keyword.TheVariants.{Decl as DECL, Beg as BEG, Return as RETURN, End as END};
ghost use Rattle.lang_model.specs.declared.token.Token.{Token as TOKEN};
ghost use Rattle.rv_tokens.specs.Endings.{ending_of};
ghost use Rattle.rv_parse.specs.declared.halt.Halt.TheVariants.{NoMemory};
ghost use Rattle.rv_parse.specs.Readers.{Refuses};
ghost use Rattle.rv_parse.specs.Got.{Got, ReadsTo, SpellsTail, definition_parts, declared_parts};

use crate::expr::expression;
use crate::halt::{Halt, Wanted};
use crate::leaf::{behind_sign, behind_word, missing, next_name, next_sign, next_word, with_word};
use crate::stmt::stmts;
use lang_model::limits::PARAMETER_LIMIT;
use lang_model::syntax::{Decl, Expr, Item, Name, Place, Stmt};
use lang_model::token::{Keyword, Kind, Token};
use rv_tokens::Ending;
use std::alloc::Global;

/// What is spelled from BEG on.
#[derive(Drop)]
struct Tail {
    body: Vec<Stmt>,
    result: Expr,
}

/// The parameters of a definition.
fn params(alloc: Global, tokens: &[Token], end: Ending) -> Result<(Vec<Name>, &[Token]), Halt>
    ensures { MatchResult result
        (λ x. Got (ending_of end) (NamePart ∷ MoreParams more_limit ∷ []) (SpellsParams x.0.items) tokens.now x.1.now)
        (Refuses (ending_of end) (NamePart ∷ MoreParams more_limit ∷ []) tokens.now) }
{
    let mut params = Vec::new(alloc);
    let (first, _, behind) = next_name(alloc, tokens, end)?;
    params.push(first)?;
    let mut rest = behind;
    'more: while params.len() < PARAMETER_LIMIT {
        let Some((_, behind)) = behind_sign(rest, b',') else {
            return Ok((params, rest));
        };
        let (next, _, behind) = next_name(alloc, behind, end)?;
        params.push(next)?;
        rest = behind;
    }
    Ok((params, rest))
}

/// The parameters of a definition with the parentheses around them.
fn params_in_parentheses(
    alloc: Global,
    tokens: &[Token],
    end: Ending,
) -> Result<(Vec<Name>, &[Token]), Halt>
    ensures { MatchResult result (λ x. Got (ending_of end)
        (SignPart 40 ∷ NamePart ∷ MoreParams more_limit ∷ SignPart 41 ∷ [])
        (λ t r. (t1 t2 : List TOKEN) × Takes (Sign 40) t t1 × SpellsParams x.0.items t1 t2 × Takes (Sign 41) t2 r)
        tokens.now x.1.now)
        (Refuses (ending_of end) (SignPart 40 ∷ NamePart ∷ MoreParams more_limit ∷ SignPart 41 ∷ []) tokens.now) }
{
    let (_, rest) = next_sign(tokens, end, b'(')?;
    let (list, rest) = params(alloc, rest, end)?;
    let (_, rest) = next_sign(rest, end, b')')?;
    Ok((list, rest))
}

/// PROD or SUM: whether it is SUM.
fn domain_word(tokens: &[Token], end: Ending) -> Result<(bool, &[Token]), Halt>
    ensures read { MatchResult result (λ x. Takes (domain_word x.0) tokens.now x.1.now
        × ReadsTo (ending_of end) (DomainPart ∷ []) (SignPart 40 ∷ NamePart ∷ SignPart 44 ∷ NamePart ∷ SignPart 41
        ∷ []) tokens.now x.1.now) (Refuses (ending_of end) (DomainPart ∷ []) tokens.now) }
    ensures memory { IfErr result (λ halt. halt ≡ NoMemory → ⊥) }
{
    let [first, rest @ ..] = tokens else {
        return Err(missing(tokens, end, Wanted::Word(Keyword::Prod)));
    };
    match &first.kind {
        Kind::Keyword(Keyword::Prod) => Ok((false, rest)),
        Kind::Keyword(Keyword::Sum) => Ok((true, rest)),
        _ => Err(missing(tokens, end, Wanted::Word(Keyword::Prod))),
    }
}

/// PROD or SUM with the parenthesis after it: whether it is SUM.
fn domain_open(tokens: &[Token], end: Ending) -> Result<(bool, &[Token]), Halt>
    ensures { MatchResult result (λ x. (mid : List TOKEN) × Takes (domain_word x.0) tokens.now mid
        × Takes (Sign 40) mid x.1.now × ReadsTo (ending_of end) (DomainPart ∷ [])
        (NamePart ∷ SignPart 44 ∷ NamePart ∷ SignPart 41 ∷ []) tokens.now x.1.now)
        (Refuses (ending_of end) (DomainPart ∷ []) tokens.now) }
{
    let (sum, rest) = domain_word(tokens, end)?;
    let (_, rest) = next_sign(rest, end, b'(')?;
    Ok((sum, rest))
}

/// A name with this sign after it.
fn name_and_sign(
    alloc: Global,
    tokens: &[Token],
    end: Ending,
    byte: u8,
) -> Result<(Name, &[Token]), Halt>
    ensures { MatchResult result (λ x. Got (ending_of end) (NamePart ∷ SignPart byte ∷ [])
        (λ t r. (mid : List TOKEN) × Takes (Word x.0) t mid × Takes (Sign byte) mid r) tokens.now x.1.now)
        (Refuses (ending_of end) (NamePart ∷ SignPart byte ∷ []) tokens.now) }
{
    let (name, _, rest) = next_name(alloc, tokens, end)?;
    let (_, rest) = next_sign(rest, end, byte)?;
    Ok((name, rest))
}

/// The definition of a domain, after its sign of equality.
fn domain(
    alloc: Global,
    at: Place,
    name: Name,
    tokens: &[Token],
    end: Ending,
) -> Result<(Decl, &[Token]), Halt>
    ensures { MatchResult result (λ x. Got (ending_of end) (DomainPart ∷ [])
        (λ t r. (before mid : List TOKEN) → TakesAt at (Word name) before mid → Takes (Sign 61) mid t
        → SpellsDecl x.0 before r) tokens.now x.1.now) (Refuses (ending_of end) (DomainPart ∷ []) tokens.now) }
{
    let (sum, rest) = domain_open(tokens, end)?;
    let (left, rest) = name_and_sign(alloc, rest, end, b',')?;
    let (right, rest) = name_and_sign(alloc, rest, end, b')')?;
    Ok((
        Decl::Domain {
            at,
            name,
            sum,
            left,
            right,
        },
        rest,
    ))
}

/// A declaration.
#[tactic(auto, using(crate::proofs::Defs::drop_meaning, crate::proofs::Defs::enter_meaning))]
fn next_decl(alloc: Global, tokens: &[Token], end: Ending) -> Result<(Decl, &[Token]), Halt>
    ensures { MatchResult result (λ x. Got (ending_of end) (NamePart ∷ MeaningPart ∷ []) (SpellsDecl x.0) tokens.now
        x.1.now) (Refuses (ending_of end) (NamePart ∷ MeaningPart ∷ []) tokens.now) }
{
    let (name, at, rest) = next_name(alloc, tokens, end)?;
    match behind_sign(rest, b'=') {
        Some((_, behind)) => {
            let (decl, rest) = domain(alloc, at, name, behind, end)?;
            Ok((decl, rest))
        }
        None => Ok((Decl::Variable { at, name }, rest)),
    }
}

/// The declarations, after DECL.
#[tactic(auto, using(crate::proofs::Defs::drop_decls, crate::proofs::Defs::enter_decls))]
fn decls(alloc: Global, tokens: &[Token], end: Ending) -> Result<(Vec<Decl>, &[Token]), Halt>
    ensures { MatchResult result (λ x. Got (ending_of end) (NamePart ∷ MeaningPart ∷ MoreDecls ∷ [])
        (λ t r. (before : List TOKEN) → Takes (KEYWORD DECL) before t → SpellsDecls x.0.items before r) tokens.now
        x.1.now) (Refuses (ending_of end) (NamePart ∷ MeaningPart ∷ MoreDecls ∷ []) tokens.now) }
{
    let (first, behind) = next_decl(alloc, tokens, end)?;
    let mut decls = Vec::new(alloc);
    decls.push(first)?;
    let mut rest = behind;
    'decls: while let Some((_, behind)) = behind_sign(rest, b',') {
        let (next, behind) = next_decl(alloc, behind, end)?;
        decls.push(next)?;
        rest = behind;
    }
    Ok((decls, rest))
}

/// The declarations of a program, after DECL and up to BEG.
fn program_decls(
    alloc: Global,
    tokens: &[Token],
    end: Ending,
) -> Result<(Vec<Decl>, &[Token]), Halt>
    ensures { MatchResult result (λ x. Got (ending_of end) (NamePart ∷ MeaningPart ∷ MoreDecls ∷ WordPart BEG ∷ [])
        (λ t r. (mid : List TOKEN) × ((before : List TOKEN) → Takes (KEYWORD DECL) before t
        → SpellsDecls x.0.items before mid) × Takes (KEYWORD BEG) mid r) tokens.now x.1.now)
        (Refuses (ending_of end) (NamePart ∷ MeaningPart ∷ MoreDecls ∷ WordPart BEG ∷ []) tokens.now) }
{
    let (list, rest) = decls(alloc, tokens, end)?;
    let (_, rest) = next_word(rest, end, Keyword::Beg)?;
    Ok((list, rest))
}

/// The statements of a program, up to RETURN.
fn program_body(alloc: Global, tokens: &[Token], end: Ending) -> Result<(Vec<Stmt>, &[Token]), Halt>
    requires { length tokens.now < 2 ^ 32 }
    ensures { MatchResult result (λ x. Got (ending_of end) (StmtsPart 0 ∷ WordPart RETURN ∷ [])
        (λ t r. (mid : List TOKEN) × SpelledStmts 0 x.0.items t mid × Takes (KEYWORD RETURN) mid r) tokens.now
        x.1.now) (Refuses (ending_of end) (StmtsPart 0 ∷ WordPart RETURN ∷ []) tokens.now) }
{
    let (body, rest) = stmts(alloc, tokens, end, 0)?;
    let (_, rest) = next_word(rest, end, Keyword::Return)?;
    Ok((body, rest))
}

/// The result of a program, up to END.
fn program_result(alloc: Global, tokens: &[Token], end: Ending) -> Result<(Expr, &[Token]), Halt>
    requires { length tokens.now < 2 ^ 32 }
    ensures { MatchResult result (λ x. Got (ending_of end) (ExprPart OrLevel 0 ∷ WordPart END ∷ [])
        (λ t r. (mid : List TOKEN) × Spelled OrLevel 0 x.0 t mid × Takes (KEYWORD END) mid r) tokens.now x.1.now)
        (Refuses (ending_of end) (ExprPart OrLevel 0 ∷ WordPart END ∷ []) tokens.now) }
{
    let (result, rest) = expression(alloc, tokens, end, 0)?;
    let (result, rest) = with_word(result, rest, end, Keyword::End)?;
    Ok((result, rest))
}

/// The statements and the result of a program, after BEG.
fn program_end(alloc: Global, tokens: &[Token], end: Ending) -> Result<(Tail, &[Token]), Halt>
    requires { length tokens.now < 2 ^ 32 }
    ensures { MatchResult result (λ x. Got (ending_of end) program_parts (SpellsTail x.0.body.items x.0.result)
        tokens.now x.1.now) (Refuses (ending_of end) program_parts tokens.now) }
{
    let (body, rest) = program_body(alloc, tokens, end)?;
    let (result, rest) = program_result(alloc, rest, end)?;
    Ok((Tail { body, result }, rest))
}

/// The body of a function, after its sign of equality.
fn function_body(
    alloc: Global,
    at: Place,
    name: Name,
    params: Vec<Name>,
    tokens: &[Token],
    end: Ending,
) -> Result<(Item, &[Token]), Halt>
    requires { length tokens.now < 2 ^ 32 }
    ensures { MatchResult result (λ x. Got (ending_of end) (ExprPart OrLevel 0 ∷ [])
        (λ t r. (before mid : List TOKEN) → SpellsHead at name params.items before mid → Takes (Sign 61) mid t
        → SpellsItem x.0 before r) tokens.now x.1.now)
        (Refuses (ending_of end) (ExprPart OrLevel 0 ∷ []) tokens.now) }
{
    let (body, rest) = expression(alloc, tokens, end, 0)?;
    let item = Item::Function {
        at,
        name,
        params,
        body,
    };
    Ok((item, rest))
}

/// A program without declarations, after BEG.
fn plain_program(
    alloc: Global,
    at: Place,
    name: Name,
    params: Vec<Name>,
    tokens: &[Token],
    end: Ending,
) -> Result<(Item, &[Token]), Halt>
    requires { length tokens.now < 2 ^ 32 }
    ensures { MatchResult result (λ x. Got (ending_of end) program_parts
        (λ t r. (before mid : List TOKEN) → SpellsHead at name params.items before mid → Takes (KEYWORD BEG) mid t
        → SpellsItem x.0 before r) tokens.now x.1.now) (Refuses (ending_of end) program_parts tokens.now) }
{
    let (tail, rest) = program_end(alloc, tokens, end)?;
    let decls = Vec::new(alloc);
    let item = Item::Program {
        at,
        name,
        params,
        decls,
        body: tail.body,
        result: tail.result,
    };
    Ok((item, rest))
}

/// A program with declarations, after DECL.
fn declared_program(
    alloc: Global,
    at: Place,
    name: Name,
    params: Vec<Name>,
    tokens: &[Token],
    end: Ending,
) -> Result<(Item, &[Token]), Halt>
    requires { length tokens.now < 2 ^ 32 }
    ensures { MatchResult result (λ x. Got (ending_of end) declared_parts
        (λ t r. (before mid : List TOKEN) → SpellsHead at name params.items before mid → Takes (KEYWORD DECL) mid t
        → SpellsItem x.0 before r) tokens.now x.1.now) (Refuses (ending_of end) declared_parts tokens.now) }
{
    let (decls, rest) = program_decls(alloc, tokens, end)?;
    let (tail, rest) = program_end(alloc, rest, end)?;
    let item = Item::Program {
        at,
        name,
        params,
        decls,
        body: tail.body,
        result: tail.result,
    };
    Ok((item, rest))
}

/// The body of a definition, after its head.
#[tactic(auto, using(crate::proofs::Defs::no_body))]
fn meaning(
    alloc: Global,
    at: Place,
    name: Name,
    params: Vec<Name>,
    tokens: &[Token],
    end: Ending,
) -> Result<(Item, &[Token]), Halt>
    requires { length tokens.now < 2 ^ 32 }
    ensures { MatchResult result (λ x. Got (ending_of end) (BodyPart ∷ [])
        (λ t r. (before : List TOKEN) → SpellsHead at name params.items before t → SpellsItem x.0 before r) tokens.now
        x.1.now) (Refuses (ending_of end) (BodyPart ∷ []) tokens.now) }
{
    if let Some((_, behind)) = behind_sign(tokens, b'=') {
        return function_body(alloc, at, name, params, behind, end);
    }
    if let Some((_, behind)) = behind_word(tokens, Keyword::Beg) {
        return plain_program(alloc, at, name, params, behind, end);
    }
    if let Some((_, behind)) = behind_word(tokens, Keyword::Decl) {
        return declared_program(alloc, at, name, params, behind, end);
    }
    Err(missing(tokens, end, Wanted::Sign(b'=')))
}

/// A definition, after its name.
pub fn definition<'a>(
    alloc: Global,
    name: &Name,
    at: Place,
    tokens: &'a [Token],
    end: Ending,
) -> Result<(Item, &'a [Token]), Halt>
    requires { length tokens.now < 2 ^ 32 }
    ensures { MatchResult result (λ x. Got (ending_of end) definition_parts
        (λ t r. (before : List TOKEN) → TakesAt at (Word name.now) before t → SpellsItem x.0 before r) tokens.now
        x.1.now) (Refuses (ending_of end) definition_parts tokens.now) }
{
    let name = name.copied(alloc)?;
    let (params, rest) = params_in_parentheses(alloc, tokens, end)?;
    meaning(alloc, at, name, params, rest, end)
}
