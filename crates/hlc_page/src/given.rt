// What a page says in texts: how lines of JSON are read, and what is asked of a log.

ghost use Rattle.std.specs.Prelude.{◌≡◌, IfErr, IfOk};
ghost use Rattle.hlc_command_line.specs.Asked.{AreAsked};
ghost use Rattle.hlc_page.specs.Given.{AreLinesReadBy, HasNoText, IsJsonMistake, IsJsonOf, IsQuestionMistake, texts_in};
ghost use Rattle.hlc_page.specs.declared.page_fault.PageFault.TheVariants as page;

use crate::page_fault::PageFault;
use crate::page_log::PageLog;
use hlc_command_line::{add_fields, add_kinds, questions};
use hlc_json_lines::JsonRules;
use hlc_log_text::LogQuestion;
use std::alloc::Global;

// Texts that are given as bytes.
fn texts<'a>(alloc: Global, given: &[&'a [u8]]) -> Result<Vec<&'a str>, PageFault>
    ensures texts { IfOk result (λ texts. texts_in texts.items ≡ texts_in given.now) }
    ensures other { IfErr result (λ fault. fault ≡ page.Mistake → HasNoText (texts_in given.now)) }
{
    let mut texts = Vec::new(alloc);
    for bytes in given {
        texts.reserve(1)?;
        let Ok(text) = str::from_utf8(*bytes) else {
            return Err(PageFault::Mistake);
        };
        texts.push_reserved(text);
    }
    Ok(texts)
}

// How lines of JSON are read.
fn line_rules(alloc: Global, log: &PageLog<'_>) -> Result<JsonRules, PageFault>
    ensures found { IfOk result (AreLinesReadBy log.now) }
    ensures mistaken { IfErr result (λ fault. fault ≡ page.Mistake → IsJsonMistake log.now) }
{
    let fields = texts(alloc, log.fields)?;
    let kinds = texts(alloc, log.kinds)?;
    let mut rules = JsonRules::new(alloc);
    add_fields(alloc, &mut rules, &fields)?;
    add_kinds(alloc, &mut rules, &kinds)?;
    Ok(rules)
}

// How lines of JSON are read, if the log has them.
pub(crate) fn json_rules(alloc: Global, log: &PageLog<'_>) -> Result<Option<JsonRules>, PageFault>
    ensures found { IfOk result (IsJsonOf log.now) }
    ensures mistaken { IfErr result (λ fault. fault ≡ page.Mistake → IsJsonMistake log.now) }
{
    if log.jsonl == 0 {
        return Ok(None);
    }
    match line_rules(alloc, log) {
        Ok(rules) => Ok(Some(rules)),
        Err(fault) => Err(fault),
    }
}

// What is asked of a log.
pub(crate) fn asked_questions(alloc: Global, asked: &[&[u8]]) -> Result<Vec<LogQuestion>, PageFault>
    ensures asked { IfOk result (λ questions. AreAsked (texts_in asked.now) questions.items) }
    ensures mistaken { IfErr result (λ fault. fault ≡ page.Mistake → IsQuestionMistake (texts_in asked.now)) }
{
    let texts = texts(alloc, asked)?;
    Ok(questions(alloc, &texts)?)
}
