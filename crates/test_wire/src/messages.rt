//! Messages as Python signs and ipykernel sends them, and dates by Python's `datetime`.

use jmsg::{Decoded, Header, Message, date_text, decode, encode, signature};
use jsign::sign;
use jtext::{Bytes, Fields, Json, NoMemory, Text, read, write_compact};
use std::alloc::Global;
use std::process::Abort;
use std::test::Fail;
use zmtp_wire::Parts;

/// The parts of a message from a text in which `~` stands between them.
fn parts_of(alloc: Global, text: &[u8]) -> Result<Parts, NoMemory> {
    let mut parts = Parts::new(alloc);
    for part in text.split(|byte| *byte == b'~') {
        parts.push(Bytes::of(alloc, part)?)?;
    }
    Ok(parts)
}

/// Each part on a line of its own.
fn lines_of(alloc: Global, parts: &Parts) -> Result<Bytes, NoMemory> {
    let mut lines = Bytes::new(alloc);
    for part in parts.as_slice() {
        lines.add(part.bytes())?;
        lines.add(b"\n")?;
    }
    Ok(lines)
}

/// What the parts are under the key `k`.
fn verdict(alloc: Global, parts: &Parts) -> Result<&'static str, NoMemory> {
    match decode(alloc, b"k", parts)? {
        Decoded::Good(_) => Ok("good"),
        Decoded::NoDelimiter => Ok("no delimiter"),
        Decoded::Short => Ok("short"),
        Decoded::Unsigned => Ok("unsigned"),
        Decoded::NotJson => Ok("not json"),
    }
}

fn good(alloc: Global, key: &[u8], parts: &Parts) -> Result<Option<Message>, NoMemory> {
    match decode(alloc, key, parts)? {
        Decoded::Good(message) => Ok(Some(message)),
        _ => Ok(None),
    }
}

fn status_header(alloc: Global) -> Result<Header, NoMemory> {
    Ok(Header {
        msg_id: Text::of(alloc, "s_1")?,
        session: Text::of(alloc, "s")?,
        username: Text::of(alloc, "nbrun")?,
        date: Some(Text::of(alloc, "2000-01-01T00:00:00.000Z")?),
        msg_type: Text::of(alloc, "status")?,
        version: Text::of(alloc, "5.3")?,
    })
}

/// A message of type `status`, with no parent.
fn status(alloc: Global) -> Result<Message, Fail> {
    let content = read(alloc, b"{\"execution_state\":\"idle\"}", 100)?;
    let header = status_header(alloc)?;
    Ok(Message {
        header,
        parent_id: None,
        parent: Json::Obj(Fields::new(alloc)),
        metadata: Json::Obj(Fields::new(alloc)),
        content,
        buffers: Parts::new(alloc),
    })
}

/// The parts of that message under the key. The message is dropped by a call, for a short proof.
fn status_parts(alloc: Global, key: &[u8]) -> Result<Parts, Fail> {
    let message = status(alloc)?;
    let parts = encode(alloc, key, &message);
    drop(message);
    Ok(parts?)
}

/// The lines of its parts under the key `k`, and how many there are.
fn status_lines(alloc: Global) -> Result<(Bytes, usize), Fail> {
    let parts = status_parts(alloc, b"k")?;
    let lines = lines_of(alloc, &parts);
    let count = parts.len();
    drop(parts);
    Ok((lines?, count))
}

/// The signature is Python's.
#[test]
fn encodes_to_six_parts(rt: HostRuntime) -> Result<(), Fail> {
    let (lines, count) = status_lines(rt.alloc())?;
    let expected =
        b"<IDS|MSG>\nd1b55cd1f947883ca13a2ca00299a5192cb3b66c73e2663b9c90638e42677d8f\n{\"msg_id\":\"s_1\",\"session\":\"s\",\"username\":\"nbrun\",\"date\":\"2000-01-01T00:00:00.000Z\",\"msg_type\":\"status\",\"version\":\"5.3\"}\n{}\n{}\n{\"execution_state\":\"idle\"}\n";
    assert_eq!(rt; lines.bytes(), expected.as_slice());
    assert_eq!(rt; count, 6);
    Ok(())
}

/// What the parts are decoded to under the key `k`, encoded again.
fn passed_on(alloc: Global, parts: &Parts) -> Result<Parts, Fail> {
    let message = good(alloc, b"k", parts)?.ok_or("not decoded")?;
    let again = encode(alloc, b"k", &message);
    drop(message);
    Ok(again?)
}

fn same_lines(alloc: Global, a: &Parts, b: &Parts) -> Result<bool, NoMemory> {
    let lines = lines_of(alloc, a)?;
    Ok(lines.bytes() == lines_of(alloc, b)?.bytes())
}

/// Whether the parts are passed on as they are.
fn stays_as_it_was(alloc: Global, parts: &Parts) -> Result<bool, Fail> {
    let again = passed_on(alloc, parts)?;
    let same = same_lines(alloc, &again, parts);
    drop(again);
    Ok(same?)
}

#[test]
fn what_was_encoded_is_decoded_and_encoded_as_it_was(rt: HostRuntime) -> Result<(), Fail> {
    let alloc = rt.alloc();
    let parts = status_parts(alloc, b"k")?;
    let stays = stays_as_it_was(alloc, &parts);
    drop(parts);
    assert!(rt; stays?);
    Ok(())
}

#[test]
fn under_another_key_it_is_unsigned(rt: HostRuntime) -> Result<(), Fail> {
    let alloc = rt.alloc();
    let parts = status_parts(alloc, b"l")?;
    let answer = verdict(alloc, &parts);
    drop(parts);
    assert_eq!(rt; answer?, "unsigned");
    Ok(())
}

fn is_text(text: &Option<Text>, expected: &str) -> bool {
    match text {
        Some(text) => text.as_str() == expected,
        None => false,
    }
}

fn header_of_ipykernel(h: &Header) -> bool {
    h.msg_id.as_str() == "4d8c2f90-a1b2c3d4e5f60718293a4b5c_4242_17"
        && h.session.as_str() == "4d8c2f90-a1b2c3d4e5f60718293a4b5c"
        && h.username.as_str() == "jovyan"
        && is_text(&h.date, "2024-05-21T09:30:00.123456Z")
        && h.msg_type.as_str() == "stream"
        && h.version.as_str() == "5.3"
}

/// As ipykernel sends it: a topic of any octets, white space in the dictionaries, a date with six
/// decimals, an id of its own form, a key that no standard names, and a buffer. Signed by Python.
fn message_of_ipykernel(alloc: Global) -> Result<Option<Message>, NoMemory> {
    let text =
        b"\xff\x00stream~<IDS|MSG>~8d11f0167673dbe3ee9c1efb87dd65af0416ce3394449a40bd04793b4520c739~{\"msg_id\": \"4d8c2f90-a1b2c3d4e5f60718293a4b5c_4242_17\", \"msg_type\": \"stream\", \"username\": \"jovyan\", \"session\": \"4d8c2f90-a1b2c3d4e5f60718293a4b5c\", \"date\": \"2024-05-21T09:30:00.123456Z\", \"version\": \"5.3\", \"subshell_id\": null}~{\"msg_id\": \"6f1e-nbrun_3\", \"msg_type\": \"execute_request\", \"username\": \"nbrun\", \"session\": \"6f1e-nbrun\", \"date\": \"2024-05-21T09:29:59.000Z\", \"version\": \"5.3\"}~{}~{\"name\": \"stdout\", \"text\": \"h\xc3\xa9llo\\n\"}~\x00\x01";
    let parts = parts_of(alloc, text)?;
    let message = good(alloc, b"7f3a1c5e-9d04-4a51-8c44-2b6f0c1d9e77", &parts);
    drop(parts);
    message
}

/// That message says this.
fn expect_ipykernel(rt: &impl Abort, alloc: Global, m: &Message) -> Result<(), Fail> {
    assert!(rt; header_of_ipykernel(&m.header));
    assert!(rt; is_text(&m.parent_id, "6f1e-nbrun_3"));
    let content = write_compact(alloc, &m.content)?;
    assert_eq!(rt;
        content.bytes(),
        b"{\"name\":\"stdout\",\"text\":\"h\xc3\xa9llo\\n\"}".as_slice()
    );
    assert_eq!(rt; m.buffers.len(), 1);
    Ok(())
}

#[test]
fn reads_a_message_of_ipykernel(rt: HostRuntime) -> Result<(), Fail> {
    let message = message_of_ipykernel(rt.alloc())?.ok_or("not decoded")?;
    let end = expect_ipykernel(&rt, rt.alloc(), &message);
    drop(message);
    end
}

#[test]
fn no_parts_have_no_delimiter(rt: HostRuntime) -> Result<(), Fail> {
    let alloc = rt.alloc();
    assert_eq!(rt; verdict(alloc, &Parts::new(alloc))?, "no delimiter");
    Ok(())
}

/// Verdicts under the key `k`, each with the frames of a message.
const VERDICTS: &[u8] = br#"no delimiter~
no delimiter~x
no delimiter~<IDS|MSG> ~4370ac5cf2f8aef38fe591c959546dc57025d02f534cac5c305ca56f02d993e0~{"msg_id":"a","msg_type":"b"}~{}~{}~{}
short~<IDS|MSG>
short~<IDS|MSG>~4370ac5cf2f8aef38fe591c959546dc57025d02f534cac5c305ca56f02d993e0~{"msg_id":"a","msg_type":"b"}~{}~{}
short~x~<IDS|MSG>~4370ac5cf2f8aef38fe591c959546dc57025d02f534cac5c305ca56f02d993e0~{"msg_id":"a","msg_type":"b"}~{}~{}
good~<IDS|MSG>~4370ac5cf2f8aef38fe591c959546dc57025d02f534cac5c305ca56f02d993e0~{"msg_id":"a","msg_type":"b"}~{}~{}~{}
good~x~~<IDS|MSG>~4370ac5cf2f8aef38fe591c959546dc57025d02f534cac5c305ca56f02d993e0~{"msg_id":"a","msg_type":"b"}~{}~{}~{}~<IDS|MSG>
unsigned~<IDS|MSG>~<IDS|MSG>~4370ac5cf2f8aef38fe591c959546dc57025d02f534cac5c305ca56f02d993e0~{"msg_id":"a","msg_type":"b"}~{}~{}~{}
unsigned~<IDS|MSG>~4370ac5cf2f8aef38fe591c959546dc57025d02f534cac5c305ca56f02d993e1~{"msg_id":"a","msg_type":"b"}~{}~{}~{}
unsigned~<IDS|MSG>~4370AC5CF2F8AEF38FE591C959546DC57025D02F534CAC5C305CA56F02D993E0~{"msg_id":"a","msg_type":"b"}~{}~{}~{}
unsigned~<IDS|MSG>~~{"msg_id":"a","msg_type":"b"}~{}~{}~{}
unsigned~<IDS|MSG>~4370ac5cf2f8aef38fe591c959546dc57025d02f534cac5c305ca56f02d993e0~x~{}~{}~{}"#;

/// Verdicts on messages that Python signed with the key `k`.
const SIGNED: &[u8] =
    br#"good~<IDS|MSG>~4370ac5cf2f8aef38fe591c959546dc57025d02f534cac5c305ca56f02d993e0~{"msg_id":"a","msg_type":"b"}~{}~{}~{}
good~<IDS|MSG>~91c3fc35a54e202644ad90e44bb5fda365dff53d5368dc47ddb517c6c3d6a28d~ {"msg_type":"","msg_id":"","date":7,"session":null} ~{}~{}~{}
good~<IDS|MSG>~ad075fbef5a527fb3245badc9c98b487c32780fee4d04d80fc328dc76071d3c8~{"msg_id":"a","msg_type":"b"}~{"msg_id":7}~{}~{}
not json~<IDS|MSG>~fc45e505d03b1f71ae890e4329cc8481e7876405d5e39ec16e7c64fcd0a9b173~{"msg_id":"a","msg_type":"b"}~{}~{}~{"a":1,"\u0061":2}
not json~<IDS|MSG>~dd5f10a8303fff5608fd526232602ace9bcf2a2ddf2cfc120c01ef8c7182a15d~{"msg_id":"a","msg_type":"b"}~{}~{}~[]
not json~<IDS|MSG>~c4f303594a741ec49d67bc8a42a2262761a03cd20c094cd985b446d30d1d278e~{"msg_id":"a","msg_type":"b"}~{}~{}~{} x
not json~<IDS|MSG>~6390bdf577ff41fc8097c91d06c802fde1ca56d13cd107658afa1863ebf644f4~{"msg_id":"a","msg_type":"b"}~{}~~{}
not json~<IDS|MSG>~f646a858abbc04575218d05a5eddd291ecc92081e90e467fe5ac2039e64b361e~{"msg_id":"a","msg_type":"b"}~null~{}~{}
not json~<IDS|MSG>~2cc5301052f1e32f31821c8275e14b2cffed01b3306b835258dc11174eca02a3~~{}~{}~{}
not json~<IDS|MSG>~467cc7998693a030c3002a78bf4a9a779409c28c3e6fc6aac2912da3f509f846~{"msg_id":"a"}~{}~{}~{}
not json~<IDS|MSG>~f04b7a99fd257ed214db49f01bce5c3b38c4a4a349bfc0921f0af733eadfbfee~{"msg_type":"b"}~{}~{}~{}
not json~<IDS|MSG>~98ecdb8b092e660e646319bda843c17c0022f709394eb0410f9f702f3dd744c6~{"msg_id":1,"msg_type":"b"}~{}~{}~{}
not json~<IDS|MSG>~e0354e3c7d779f9d6d07dbe75a5d8146da557c54f6ac177a475b7a44595b84f4~{"msg_id":"a","msg_type":null}~{}~{}~{}
good~<IDS|MSG>~c7c02319468579264f8620360740f1e9e3fdcb79f4adea3e0b37c40fed35f0c1~{"msg_id": "kernel-7", "msg_type": "status", "username": 1, "session": [], "date": {"msg_id": "x"}, "version": true, "subshell_id": null}~{}~{}~{}
good~<IDS|MSG>~825068741d2f3b9f1ffc2ce3fc9a2aea8d759b77a7b34fe5358ccd57f45ccfe4~{"msg_id":"a","msg_type":"b"}~{}~{"started": "2024-05-21T09:30:00.123456Z"}~{"data": {"text/plain": "1"}, "transient": {}}~~{
not json~<IDS|MSG>~5d2ede567ee651f1ed17e8faef96d8e35ef2fa1044cc5716a73e27a83f3bd030~{"msg_id":"a","msg_type":"b","msg_id":"a"}~{}~{}~{}
not json~<IDS|MSG>~33e4956752b8db90a3253ef3833cea0e2c14023b71bcdce10484e7102f822b35~{"msg_id":"a","msg_type":"b"}~{"a":{"b":1,"b":1}}~{}~{}
not json~<IDS|MSG>~7a7d10b5b29ff7e2cbb05f8116dcdd2c03bb2b39ad4ee7324dedca97d2e30c88~{"msg_id":"a","msg_type":"b"}~"a"~{}~{}
not json~<IDS|MSG>~d657d4fdbda1403be4652cb37b4945d471fd16b7994e1aead31162c0fa32301e~{"msg_id":"a","msg_type":"b"}~{}~{"a":NaN}~{}
not json~<IDS|MSG>~32e1650b7cb36d5273d169cbfef259a43b9b588d1fb51b747aa996ae23978483~[{"msg_id":"a","msg_type":"b"}]~{}~{}~{}"#;

/// Whether the message is what its line says.
fn is_so(alloc: Global, line: &[u8]) -> Result<bool, NoMemory> {
    let mut parts = parts_of(alloc, line)?;
    if parts.len() == 0 {
        return Ok(false);
    }
    let expected = parts.take(0);
    Ok(verdict(alloc, &parts)?.as_bytes() == expected.bytes())
}

#[test]
fn refuses_by_the_first_test_that_fails(rt: HostRuntime) -> Result<(), Fail> {
    for line in VERDICTS.split(|byte| *byte == b'\n') {
        assert!(rt; is_so(rt.alloc(), line)?, "{line:?}");
    }
    Ok(())
}

#[test]
fn refuses_signed_frames_that_are_no_dictionaries(rt: HostRuntime) -> Result<(), Fail> {
    for line in SIGNED.split(|byte| *byte == b'\n') {
        assert!(rt; is_so(rt.alloc(), line)?, "{line:?}");
    }
    Ok(())
}

/// What a message of these parts is under the key `k`.
fn verdict_on(alloc: Global, text: &[u8]) -> Result<&'static str, NoMemory> {
    let parts = parts_of(alloc, text)?;
    let answer = verdict(alloc, &parts);
    drop(parts);
    answer
}

/// Signed by Python.
#[test]
fn refuses_frames_that_are_not_utf_8(rt: HostRuntime) -> Result<(), Fail> {
    let alloc = rt.alloc();
    let content =
        b"<IDS|MSG>~2f976b374a18441fd367e7c58c22af5ed9da3ee93bdbca06ae3ee8a3e05d82c5~{\"msg_id\":\"a\",\"msg_type\":\"b\"}~{}~{}~{\"a\":\"\xff\"}";
    let header =
        b"<IDS|MSG>~f7bd4c6dfe933d2858a7f0024d159c79663eb40cc0c7ac288545d2801c914c04~{\"msg_id\":\"\xc3(\",\"msg_type\":\"b\"}~{}~{}~{}";
    assert_eq!(rt; verdict_on(alloc, content)?, "not json");
    assert_eq!(rt; verdict_on(alloc, header)?, "not json");
    Ok(())
}

/// An object with that many lists in one another.
fn nested(alloc: Global, lists: usize) -> Result<Bytes, NoMemory> {
    let mut text = Bytes::of(alloc, b"{\"a\":")?;
    for _ in 0..lists {
        text.add(b"[")?;
    }
    for _ in 0..lists {
        text.add(b"]")?;
    }
    text.add(b"}")?;
    Ok(text)
}

fn add_frame(alloc: Global, parts: &mut Parts, frame: &[u8]) -> Result<(), NoMemory> {
    parts.push(Bytes::of(alloc, frame)?)
}

/// Appends the signature and the frames of a message with this content.
fn add_signed(alloc: Global, parts: &mut Parts, content: &[u8]) -> Result<(), NoMemory> {
    let header = b"{\"msg_id\":\"a\",\"msg_type\":\"b\"}";
    let signature = sign(b"k", header, b"{}", b"{}", content);
    add_frame(alloc, parts, &signature)?;
    add_frame(alloc, parts, header)?;
    add_frame(alloc, parts, b"{}")?;
    add_frame(alloc, parts, b"{}")?;
    add_frame(alloc, parts, content)
}

/// A signed message with that object as its content.
fn with_nested(alloc: Global, lists: usize) -> Result<Parts, NoMemory> {
    let content = nested(alloc, lists)?;
    let mut parts = parts_of(alloc, b"<IDS|MSG>")?;
    let end = add_signed(alloc, &mut parts, content.bytes());
    drop(content);
    end?;
    Ok(parts)
}

/// What that message is under the key `k`.
fn verdict_on_nested(alloc: Global, lists: usize) -> Result<&'static str, NoMemory> {
    let parts = with_nested(alloc, lists)?;
    let answer = verdict(alloc, &parts);
    drop(parts);
    answer
}

#[test]
fn reads_dictionaries_nested_100_deep_and_no_deeper(rt: HostRuntime) -> Result<(), Fail> {
    let alloc = rt.alloc();
    assert_eq!(rt; verdict_on_nested(alloc, 99)?, "good");
    assert_eq!(rt; verdict_on_nested(alloc, 100)?, "not json");
    assert_eq!(rt; verdict_on_nested(alloc, 100_000)?, "not json");
    Ok(())
}

/// Messages whose signature is 64 times `7`.
const FOUND: &[u8] =
    br#"x~<IDS|MSG>~7777777777777777777777777777777777777777777777777777777777777777~~~~
<IDS|MSG>~7777777777777777777777777777777777777777777777777777777777777777~~~~~y"#;

/// Messages without a signature of 64 octets.
const NOT_FOUND: &[u8] = br#"<IDS|MSG>~7~~~~
<IDS|MSG>~7777777777777777777777777777777777777777777777777777777777777777~~~
7777777777777777777777777777777777777777777777777777777777777777~~~~"#;

/// The signature of a message of these parts.
fn signature_in(alloc: Global, line: &[u8]) -> Result<Option<[u8; 64]>, NoMemory> {
    let parts = parts_of(alloc, line)?;
    let found = signature(&parts);
    drop(parts);
    Ok(found)
}

#[test]
fn finds_the_signature_untested(rt: HostRuntime) -> Result<(), Fail> {
    let alloc = rt.alloc();
    for line in FOUND.split(|byte| *byte == b'\n') {
        assert!(rt; signature_in(alloc, line)? == Some([b'7'; 64]), "{line:?}");
    }
    for line in NOT_FOUND.split(|byte| *byte == b'\n') {
        assert!(rt; signature_in(alloc, line)?.is_none(), "{line:?}");
    }
    Ok(())
}

/// Moments and their texts, by Python's `datetime`.
const DATES: &str = r"0 1970-01-01T00:00:00.000Z
68169600000 1972-02-29T00:00:00.000Z
68255999999 1972-02-29T23:59:59.999Z
68256000000 1972-03-01T00:00:00.000Z
951782400000 2000-02-29T00:00:00.000Z
951782400123 2000-02-29T00:00:00.123Z
1709164799999 2024-02-28T23:59:59.999Z
1709251199999 2024-02-29T23:59:59.999Z
1709251200000 2024-03-01T00:00:00.000Z
4107542399999 2100-02-28T23:59:59.999Z
4107542400000 2100-03-01T00:00:00.000Z
140737488355327 6429-10-17T02:45:55.327Z";

fn is_date(line: &str) -> bool {
    let Some((ms, expected)) = line.split_once(' ') else {
        return false;
    };
    match ms.parse::<u64>() {
        Ok(ms) => ms < 1 << 47 && date_text(ms).as_slice() == expected.as_bytes(),
        Err(_) => false,
    }
}

#[test]
fn writes_dates(rt: HostRuntime) -> Result<(), Fail> {
    for line in DATES.lines() {
        assert!(rt; is_date(line), "{line}");
    }
    Ok(())
}
