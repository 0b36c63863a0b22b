//! The answers that are a word alone, and those of a text.

use std::alloc::Global;
use std::test::*;
use tally_desk_answer::{
    AnswerStatus, BodyType, WORD_ROOM, Word, answer_of, unavailable_text, write_word,
};

pub(crate) const WORDS: &str = r#"word bad_head = 400 Bad Request|19|{"word":"bad_head"}
word head_too_long = 400 Bad Request|24|{"word":"head_too_long"}
word length_required = 411 Length Required|26|{"word":"length_required"}
word bad_length = 400 Bad Request|21|{"word":"bad_length"}
word body_too_long = 400 Bad Request|24|{"word":"body_too_long"}
word ended_early = 400 Bad Request|22|{"word":"ended_early"}
word no_route = 404 Not Found|19|{"word":"no_route"}
word bad_body = 400 Bad Request|19|{"word":"bad_body"}
word bad_header = 400 Bad Request|21|{"word":"bad_header"}
word too_long = 400 Bad Request|19|{"word":"too_long"}
word not_certified = 409 Conflict|24|{"word":"not_certified"}
word other_method = 409 Conflict|23|{"word":"other_method"}
word unavailable = 503 Service Unavailable|22|{"word":"unavailable"}"#;

fn word_named(text: &str) -> Result<Word, Fail> {
    match text {
        "bad_head" => Ok(Word::BadHead),
        "head_too_long" => Ok(Word::HeadTooLong),
        "length_required" => Ok(Word::LengthRequired),
        "bad_length" => Ok(Word::BadLength),
        "body_too_long" => Ok(Word::BodyTooLong),
        "ended_early" => Ok(Word::EndedEarly),
        "no_route" => Ok(Word::NoRoute),
        "bad_body" => Ok(Word::BadBody),
        "bad_header" => Ok(Word::BadHeader),
        "too_long" => Ok(Word::TooLong),
        "not_certified" => Ok(Word::NotCertified),
        "other_method" => Ok(Word::OtherMethod),
        "unavailable" => Ok(Word::Unavailable),
        _ => Err(Fail::from("no word")),
    }
}

fn answered(alloc: Global, word: Word) -> Result<String, Fail> {
    let mut out = Vec::with_capacity(alloc, WORD_ROOM)?;
    write_word(&mut out, word);
    Ok(String::from_utf8_lossy(alloc, &out)?)
}

/// The answer with a word.
pub(crate) fn word_answer(alloc: Global, text: &str) -> Result<String, Fail> {
    answered(alloc, word_named(text)?)
}

const UNAVAILABLE: &str = "HTTP/1.1 503 Service Unavailable\r
Content-Type: application/json\r
Content-Length: 22\r
Connection: close\r
\r
{\"word\":\"unavailable\"}";

const GET_ONLY: &str = "HTTP/1.1 405 Method Not Allowed\r
Content-Type: application/json\r
Content-Length: 20\r
Allow: GET\r
Connection: close\r
\r
{\"word\":\"no_method\"}";

const POST_ONLY: &str = "HTTP/1.1 405 Method Not Allowed\r
Content-Type: application/json\r
Content-Length: 20\r
Allow: POST\r
Connection: close\r
\r
{\"word\":\"no_method\"}";

#[test]
fn answers_with_a_word_have_these_bytes(rt: HostRuntime) -> Result<(), Fail> {
    for (word, want) in [
        (Word::GetOnly, GET_ONLY),
        (Word::PostOnly, POST_ONLY),
        (Word::Unavailable, UNAVAILABLE),
    ] {
        let got = answered(rt.alloc(), word)?;
        assert!(rt; got.as_str() == want);
    }
    assert!(rt; unavailable_text() == UNAVAILABLE.as_bytes());
    Ok(())
}

// The progress of one constituency, and the answer that has it.
const LINE: &str = "c1                    1      1      0      0      0      0      1 open\n";

const PROGRESS: &str = "HTTP/1.1 200 OK\r
Content-Type: text/plain; charset=utf-8\r
Content-Length: 71\r
Connection: close\r
\r
c1                    1      1      0      0      0      0      1 open
";

#[test]
fn a_report_is_plain_text(rt: HostRuntime) -> Result<(), Fail> {
    let got = answer_of(
        rt.alloc(),
        AnswerStatus::Done,
        BodyType::Text,
        LINE.as_bytes(),
    )?;
    assert!(rt; got.as_slice() == PROGRESS.as_bytes());
    Ok(())
}
