//! What a head is answered.

use crate::table::{config_of, cut, meant};
use gateway_config::Config;
use repl_messages::Version;
use sg_outside::Bytes;
use std::alloc::{AllocError, Global};
use std::test::Fail;
use ws_door::{Refused, Upgrade, upgrade};

/// Heads, one a line: before each the user and the version, or the refusal.
const HEADS: &str = "\
ann 3|@*&BLIP_3+CBMobile_3^Cookie: $=s1^^\n\
ben 3|@*&BLIP_3+CBMobile_3^Cookie: $=s2^^\n\
ann 3|^@*&BLIP_3+CBMobile_3^Cookie: $=s1^^\n\
ann 3|GET /db/_blipsync HTTP/1.0^*&BLIP_3+CBMobile_3^Cookie: $=s1^^more\n\
ann 3|@UPGRADE:WEBSocket^*&BLIP_3+CBMobile_3^cookie:$=s1^^\n\
400|\n\
400|^^\n\
400|@*&BLIP_3+CBMobile_3^Cookie: $=s1^\n\
400|POST /db/_blipsync HTTP/1.1^*&BLIP_3+CBMobile_3^Cookie: $=s1^^\n\
400|get /db/_blipsync HTTP/1.1^*&BLIP_3+CBMobile_3^Cookie: $=s1^^\n\
400|POST /x HTTP/1.1^*&BLIP_3+CBMobile_3^Cookie: $=s1^^\n\
400|GET /db/_blipsync HTTP/1.2^*&BLIP_3+CBMobile_3^Cookie: $=s1^^\n\
400|@*&BLIP_3+CBMobile_3^Host: %^Cookie: $=s1^^\n\
400|GET /~ HTTP/1.1^*&BLIP_3+CBMobile_3^Cookie: $=s1^^\n\
ann 3|@*&BLIP_3+CBMobile_3^#Cookie: $=s1^^\n\
400|@*&BLIP_3+CBMobile_3^#Cookie: $=s1^a: b^^\n\
404|GET /x HTTP/1.1^*&BLIP_3+CBMobile_3^Cookie: $=s1^^\n\
404|GET /db/_blipsync?x HTTP/1.1^*&BLIP_3+CBMobile_3^Cookie: $=s1^^\n\
404|GET /DB/_blipsync HTTP/1.1^*&BLIP_3+CBMobile_3^Cookie: $=s1^^\n\
404|GET db/_blipsync HTTP/1.1^^\n\
400|@&BLIP_3+CBMobile_3^Cookie: $=s1^^\n\
400|@Upgrade: h2c^*&BLIP_3+CBMobile_3^Cookie: $=s1^^\n\
400|@Upgrade: websocket, h2c^*&BLIP_3+CBMobile_3^Cookie: $=s1^^\n\
400|@Sec-WebSocket-Version: 8^*&BLIP_3+CBMobile_3^Cookie: $=s1^^\n\
400|@Sec-WebSocket-Version: 8, 13^*&BLIP_3+CBMobile_3^Cookie: $=s1^^\n\
400|@Sec-WebSocket-Key: dGhlIHNhbXBsZSBub25jZQ=^*&BLIP_3+CBMobile_3^Cookie: $=s1^^\n\
400|@Upgrade: websocket^Sec-WebSocket-Version: 13^&BLIP_3+CBMobile_3^Cookie: $=s1^^\n\
400|@Upgrade: websocket^Sec-WebSocket-Key: dGhlIHNhbXBsZSBub25jZQ==^^\n\
ann 2|@*&BLIP_3+CBMobile_2^Cookie: $=s1^^\n\
ann 2|@*&chat ,  BLIP_3+CBMobile_2 , BLIP_3+CBMobile_3^Cookie: $=s1^^\n\
ann 3|@*&BLIP_3+CBMobile_3,BLIP_3+CBMobile_2^Cookie: $=s1^^\n\
ann 3|@*&BLIP_3+CBMobile_3^&BLIP_3+CBMobile_2^Cookie: $=s1^^\n\
426|@*Cookie: $=s1^^\n\
426|@*&^Cookie: $=s1^^\n\
426|@*&chat, blip_3+cbmobile_3, BLIP_3+CBMobile_4^Cookie: $=s1^^\n\
426|@*&BLIP_3+CBMobile_2;BLIP_3+CBMobile_3^^\n\
no|@*&BLIP_3+CBMobile_3^^\n\
no|@*&BLIP_3+CBMobile_3^Cookie: ^^\n\
no|@*&BLIP_3+CBMobile_3^Cookie: $^^\n\
no|@*&BLIP_3+CBMobile_3^Cookie: $s1; s1=$; $ =s1^^\n\
no|@*&BLIP_3+CBMobile_3^Cookie: a=b^Cookie: $=s1^^\n\
ann 3|@*&BLIP_3+CBMobile_3^Cookie: a; $=s1 ;b^^\n\
ann 3|@*&BLIP_3+CBMobile_3^Cookie: $=s1; $=s2^^\n\
ben 3|@*&BLIP_3+CBMobile_3^Cookie: a=b;$;$=s2;$=s1^^\n\
unknown|@*&BLIP_3+CBMobile_3^Cookie: $=^^\n\
unknown|@*&BLIP_3+CBMobile_3^Cookie: $=s3; $=s1^^\n\
unknown|@*&BLIP_3+CBMobile_3^Cookie: $=s1=s1^^\n\
unknown|@*&BLIP_3+CBMobile_3^Cookie: $= s1^^";

fn refusal_word(refused: Refused) -> &'static [u8] {
    match refused {
        Refused::Bad400 => b"400",
        Refused::Path404 => b"404",
        Refused::Protocol426 => b"426",
        Refused::NoCookie401 => b"no",
        Refused::UnknownCookie401 => b"unknown",
        Refused::Memory => b"no answer",
    }
}

fn version_word(version: Version) -> &'static [u8] {
    match version {
        Version::Two => b" 2",
        Version::Three => b" 3",
    }
}

fn write_answer(answer: &Result<Upgrade, Refused>, text: &mut Bytes) -> Result<(), AllocError> {
    match answer {
        Ok(upgrade) => {
            text.extend_from_slice(upgrade.user.as_bytes())?;
            text.extend_from_slice(version_word(upgrade.version))
        }
        Err(refused) => text.extend_from_slice(refusal_word(*refused)),
    }
}

fn is_right(alloc: Global, config: &Config, line: &str) -> Result<bool, AllocError> {
    let (want, head) = cut(line, '|');
    let head = meant(alloc, head)?;
    let answer = upgrade(alloc, head.as_slice(), config);
    let mut text = Bytes::new(alloc);
    write_answer(&answer, &mut text)?;
    Ok(text.as_slice() == want.as_bytes())
}

#[test]
fn what_a_head_is_answered(rt: HostRuntime) -> Result<(), Fail> {
    let config = config_of(rt.alloc())?;
    for line in HEADS.split('\n') {
        assert!(rt; is_right(rt.alloc(), &config, line)?, "{line}");
    }
    Ok(())
}
