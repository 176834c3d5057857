//! Code of a page. Playing: goes on from event to event at a speed that the reader chooses. Made of assets/play.js by `tests/page/assemble.py sources`.

/// The code.
#[rattlefmt::skip]
pub(crate) const PLAY: &[u8] = b"\
\n\
// Playing: goes on from event to event at a speed that the reader chooses.\n\
\n\
\n\
const SPEEDS = [0.5, 1, 2, 4, 8];\n\
\n\
class Player {\n\
\x20 constructor(goOn) {\n\
\x20   this.goOn = goOn;\n\
\x20   this.timer = undefined;\n\
\x20   this.speed = (byId(\"speed\"));\n\
\x20   this.button = byId(\"play\");\n\
\x20 }\n\
\n\
\x20 isPlaying() {\n\
\x20   return this.timer !== undefined;\n\
\x20 }\n\
\n\
\x20 toggle() {\n\
\x20   if (this.isPlaying()) {\n\
\x20     this.stop();\n\
\x20   } else {\n\
\x20     this.wait();\n\
\x20     this.tell();\n\
\x20   }\n\
\x20 }\n\
\n\
\x20 wait() {\n\
\x20   this.timer = setTimeout(() => {\n\
\x20     if (this.goOn()) {\n\
\x20       this.wait();\n\
\x20     } else {\n\
\x20       this.stop();\n\
\x20     }\n\
\x20   }, 1000 / Number(this.speed.value));\n\
\x20 }\n\
\n\
\x20 stop() {\n\
\x20   clearTimeout(this.timer);\n\
\x20   this.timer = undefined;\n\
\x20   this.tell();\n\
\x20 }\n\
\n\
\x20 tell() {\n\
\x20   this.button.textContent = this.isPlaying() ? \"\xe2\x9d\x9a\xe2\x9d\x9a stop\" : \"\xe2\x96\xb6 play\";\n\
\x20 }\n\
\n\
\x20 change(direction) {\n\
\x20   const at = SPEEDS.indexOf(Number(this.speed.value)) + direction;\n\
\x20   this.speed.value = String(SPEEDS[Math.min(Math.max(at, 0), SPEEDS.length - 1)]);\n\
\x20 }\n\
}\n\
";
