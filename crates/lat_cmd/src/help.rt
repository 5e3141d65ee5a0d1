//! What is printed of the program itself.

ghost use Rattle.std.specs.Prelude.{◌≡◌, ◌⊎◌, map, option_map, string_bytes};
ghost use Rattle.lat_cmd.specs.Help.{usage_text, topic_text, topic_of, said_alone, said_of, help_of, words_answer};

/// A command that may be asked for.
#[derive(Clone, Copy)]
pub enum Topic {
    Show,
    Pcap,
    Choose,
    Replay,
    Trace,
    Draw,
    Settle,
    Capture,
    Audit,
    Gen,
    Bench,
}

/// The version of the program.
const VERSION: &str = "lat 5.1\n";

#[tactic(auto, unfolding(crate::specs::Help::usage_text))]
fn usage() -> &'static str
    ensures { result.now ≡ usage_text }
{
    "lat works on what is written down of LAT circuits: it reads standard input to its end, and writes its answer to standard output.\n\
     \n\
     \x20   lat show         prints payloads, field by field\n\
     \x20   lat pcap         prints the frames in a pcap file\n\
     \x20   lat choose       says which node a server would choose for a service\n\
     \x20   lat replay       plays a schedule, and reports what became of it\n\
     \x20   lat trace        plays a schedule, and prints all that happened\n\
     \x20   lat draw         plays a schedule, and draws it as a picture\n\
     \x20   lat settle K     plays a schedule, and K rounds behind it\n\
     \x20   lat capture P    plays a schedule, and prints the frames of circuit P\n\
     \x20   lat audit        says whether a capture keeps the rules of a circuit\n\
     \x20   lat gen N        prints the schedule that is drawn from N\n\
     \x20   lat bench N      plays that schedule, and counts\n\
     \n\
     \x20   lat help COMMAND, lat --help, lat --version\n\
     \n\
     Status: 0 done, 1 words, 2 form, 3 a refused event, 4 read, 5 write, 6 a limit, 9 memory.\n"
}

// The command of a word.
fn topic_of(word: &str) -> Option<Topic>
    ensures { result ≡ topic_of word.now }
{
    match word {
        "show" => Some(Topic::Show),
        "pcap" => Some(Topic::Pcap),
        "choose" => Some(Topic::Choose),
        "replay" => Some(Topic::Replay),
        "trace" => Some(Topic::Trace),
        "draw" => Some(Topic::Draw),
        "settle" => Some(Topic::Settle),
        "capture" => Some(Topic::Capture),
        "audit" => Some(Topic::Audit),
        "gen" => Some(Topic::Gen),
        "bench" => Some(Topic::Bench),
        _ => None,
    }
}

// What a command reads and what it prints.
#[tactic(auto, unfolding(crate::specs::Help::topic_text))]
fn topic_text(topic: Topic) -> &'static str
    ensures { result.now ≡ topic_text topic }
{
    match topic {
        Topic::Show => {
            "lat show\n\
             Input: lines of hex digits, each the payload of a frame: what stands behind its Ethernet type.\n\
             Output: each message and notice with its fields, or \"bad FIELD PLACE\", its first bad field.\n"
        }
        Topic::Pcap => {
            "lat pcap\n\
             Input: a file of Ethernet frames in the classic pcap form, of either order of bytes, with microseconds or nanoseconds.\n\
             Output: each frame of the type 60-04 with its moment, its addresses and the text of its payload, and how many others there are.\n"
        }
        Topic::Choose => {
            "lat choose\n\
             Input: \"groups HEX\", in front or not, and then in order of the moments T lines \"hear T ADDR HEX\" and \"best T NAME\".\n\
             Output: for each question the address of the best node and its rating, or \"none\".\n"
        }
        Topic::Replay => {
            "lat replay\n\
             Input: a schedule, as docs/FORMATS.md has it: what a server and a node are made of, and what they are told.\n\
             Output: the report on every session, request and grant; or the line of the first event that is refused.\n"
        }
        Topic::Trace => {
            "lat trace\n\
             Input: a schedule.\n\
             Output: each event with its moment and its answer, and under it the frames that it made; last \"done\", or why an event is refused.\n"
        }
        Topic::Draw => {
            "lat draw\n\
             Input: a schedule of 2000 events at most.\n\
             Output: all that happened as a picture (SVG), time downwards, an arrow for each frame that came and a cross for each that was lost.\n"
        }
        Topic::Settle => {
            "lat settle K\n\
             Input: a schedule. K is the number of rounds behind it, 0 to 100000.\n\
             Output: whether nothing was lost before the rounds, and the report behind them.\n"
        }
        Topic::Capture => {
            "lat capture P\n\
             Input: a schedule. P is the id of a circuit of the server, 1 to 65535.\n\
             Output: the frames that a tap on the wire would see of that circuit, or \"none\".\n"
        }
        Topic::Audit => {
            "lat audit\n\
             Input: \"circuit P Q byte\" or \"circuit P Q word\", and then lines \"m HEX\" and \"s HEX\" of the server's and the node's payloads.\n\
             Output: \"legal RUNS\", or \"frame N RULE\", the first entry that breaks a rule.\n"
        }
        Topic::Gen => {
            "lat gen N\n\
             N is a number below 2^64. Reads nothing.\n\
             Output: the schedule that is drawn from N.\n"
        }
        Topic::Bench => {
            "lat bench N\n\
             N is a number below 2^64. Reads nothing.\n\
             Output: what the schedule that is drawn from N comes to, in one line.\n"
        }
    }
}

fn said_alone(word: &str) -> Option<&'static str>
    ensures { option_map (λ text. text.now) result ≡ said_alone word.now }
{
    match word {
        "--help" | "help" => Some(usage()),
        "--version" => Some(VERSION),
        _ => None,
    }
}

fn said_of(word: &str, topic: &str) -> Option<&'static str>
    ensures { option_map (λ text. text.now) result ≡ said_of word.now topic.now }
{
    match word {
        "help" => topic_of(topic).map(topic_text),
        _ => None,
    }
}

// What is printed where the words ask for it: `--help` or `help`, `help COMMAND`, `--version`.
fn help_of(words: &[String]) -> Option<&'static str>
    ensures { option_map (λ text. text.now) result ≡ help_of (map string_bytes words.now) }
{
    match words {
        [word] => said_alone(word.as_str()),
        [word, topic] => said_of(word.as_str(), topic.as_str()),
        _ => None,
    }
}

/// The status and the text for words that are no command: what is printed of the program itself, or `words`.
pub(crate) fn words_answer(words: &[String]) -> (u8, &'static str)
    ensures value { (result.0, result.1.now) ≡ words_answer (map string_bytes words.now) }
    ensures status { (result.0 ≡ 0) ⊎ (result.0 ≡ 1) }
{
    match help_of(words) {
        Some(text) => (0, text),
        None => (1, "words\n"),
    }
}
