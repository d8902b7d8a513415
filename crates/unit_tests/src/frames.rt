//! The version that stands behind a name.
ghost use Rattle.handshake_frames.specs.Spelling.{HasSpelling, IsVersion};
ghost use Rattle.handshake_frames.specs.declared.frame.HsFrame.TheVariants as frames;

use dist_types::Flags;
use handshake_frames::*;
use std::alloc::Global;

const FLAGS: Flags = Flags(0x1_0100_0001);

/// Two frames, what stands behind the name of each, and the version that this says. The name frame
/// has the flags of bits 0, 24 and 32, the creation 5, and `a@h`; the challenge frame the same
/// flags, the challenge 123, the creation 4, and `b@h`.
struct Behind {
    what: &'static str,
    name: &'static [u8],
    challenge: &'static [u8],
    version: u8,
}

static BEHIND: [Behind; 5] = [
    Behind {
        what: "nothing",
        name: b"N\0\0\0\x01\x01\0\0\x01\0\0\0\x05\0\x03a@h",
        challenge: b"N\0\0\0\x01\x01\0\0\x01\0\0\0\x7b\0\0\0\x04\0\x03b@h",
        version: 1,
    },
    Behind {
        what: "02",
        name: b"N\0\0\0\x01\x01\0\0\x01\0\0\0\x05\0\x03a@h\x02",
        challenge: b"N\0\0\0\x01\x01\0\0\x01\0\0\0\x7b\0\0\0\x04\0\x03b@h\x02",
        version: 2,
    },
    Behind {
        what: "02 02",
        name: b"N\0\0\0\x01\x01\0\0\x01\0\0\0\x05\0\x03a@h\x02\x02",
        challenge: b"N\0\0\0\x01\x01\0\0\x01\0\0\0\x7b\0\0\0\x04\0\x03b@h\x02\x02",
        version: 1,
    },
    Behind {
        what: "01",
        name: b"N\0\0\0\x01\x01\0\0\x01\0\0\0\x05\0\x03a@h\x01",
        challenge: b"N\0\0\0\x01\x01\0\0\x01\0\0\0\x7b\0\0\0\x04\0\x03b@h\x01",
        version: 1,
    },
    Behind {
        what: "03",
        name: b"N\0\0\0\x01\x01\0\0\x01\0\0\0\x05\0\x03a@h\x03",
        challenge: b"N\0\0\0\x01\x01\0\0\x01\0\0\0\x7b\0\0\0\x04\0\x03b@h\x03",
        version: 1,
    },
];

fn name_of(version: u8) -> NameFrame<'static>
    ensures { IsVersion version → HasSpelling (frames.Name result) }
{
    NameFrame {
        flags: FLAGS,
        creation: 5,
        name: b"a@h",
        version,
    }
}

fn challenge_of(version: u8) -> ChallengeFrame<'static>
    ensures { IsVersion version → HasSpelling (frames.Challenge result) }
{
    ChallengeFrame {
        flags: FLAGS,
        challenge: 123,
        creation: 4,
        name: b"b@h",
        version,
    }
}

fn is_name(body: &[u8], version: u8) -> bool {
    match decode_name(body) {
        Ok(frame) => frame == name_of(version),
        Err(_) => false,
    }
}

fn is_challenge(body: &[u8], version: u8) -> bool {
    match decode_challenge(body) {
        Ok(frame) => frame == challenge_of(version),
        Err(_) => false,
    }
}

#[test]
fn reads_the_version_behind_a_name(rt: HostRuntime) {
    for row in &BEHIND {
        let is_read = is_name(row.name, row.version) && is_challenge(row.challenge, row.version);
        assert!(rt; is_read, "{}", row.what);
    }
}

/// Whether the frame is written as these bytes.
fn is_written(alloc: Global, frame: &HsFrame<'_>, wanted: &[u8]) -> bool
    requires { HasSpelling frame.now }
{
    let mut body = Vec::new(alloc);
    let has_memory = encode(frame, &mut body).is_ok();
    has_memory && body.as_slice() == wanted
}

/// Whether both frames are written as in this row.
fn are_written(alloc: Global, version: u8, row: &Behind) -> bool
    requires { IsVersion version }
{
    is_written(alloc, &HsFrame::Name(name_of(version)), row.name)
        && is_written(
            alloc,
            &HsFrame::Challenge(challenge_of(version)),
            row.challenge,
        )
}

#[test]
fn writes_the_version_behind_a_name(rt: HostRuntime) {
    assert!(rt; are_written(rt.alloc(), 1, &BEHIND[0]));
    assert!(rt; are_written(rt.alloc(), 2, &BEHIND[1]));
}
