use std::test::Fail;
use workflow_cases::first_mistake;

/// One call, calls that need one another, calls that wait, and a call of an imported task.
const CALLS: &str = r#"say
text workflow w { call say { input: s = "hi" } output { String r = say.r } }
file w.wdl
answer say 0 0 hi
$ run --workers 1 w.wdl
> 0 1 +say -say
> {"w.r":"hi"}
> /tmp/wdl-run/say echo hi

say
text workflow w { call say as b { input: s = a.r } call say as a { input: s = "x" }
text  output { String r = b.r } }
file w.wdl
answer a 0 0 y
answer b 0 0 z
$ run --workers 1 --root /tmp/here w.wdl
> 0 2 +a -a +b -b
> {"w.r":"z"}
> /tmp/here/a echo x
> /tmp/here/b echo y

say
text workflow w { call say { input: s = "a" } call say as b { input: s = say.r }
text  output { String x = b.r String y = say.r } }
file w.wdl
answer say 0 0 A
answer b 0 0 B
$ run --workers 1 w.wdl
> 0 2 +say -say +b -b
> {"w.x":"B","w.y":"A"}
> /tmp/wdl-run/say echo a
> /tmp/wdl-run/b echo A

say
text workflow w { call say { input: s = "a" } call say as b after say { input: s = "b" } }
file w.wdl
answer say 0 0 A
answer b 0 0 B
$ run --workers 1 w.wdl
> 0 2 +say -say +b -b
> {}
> /tmp/wdl-run/say echo a
> /tmp/wdl-run/b echo b

say
file lib.wdl
version import "lib.wdl" workflow w { call lib.say { input: s = "hi" } output { String r = say.r } }
file w.wdl
answer say 0 0 hi
$ run w.wdl
> 0 1 +say -say
> {"w.r":"hi"}
> /tmp/wdl-run/say echo hi"#;

/// Calls in blocks.
const BLOCKS: &str = r#"say
text workflow w { scatter (i in [3, 1, 2]) { call say { input: s = i } }
text  output { Array[String] r = say.r } }
file w.wdl
answer scatter-0/0/say 0 0 3
answer scatter-0/1/say 0 0 1
answer scatter-0/2/say 0 0 2
$ run --workers 1 w.wdl
>. 0 3 +scatter-0/0/say -scatter-0/0/say +scatter-0/1/say -scatter-0/1/say
>  +scatter-0/2/say -scatter-0/2/say
> {"w.r":["3","1","2"]}
> /tmp/wdl-run/scatter-0/0/say echo 3
> /tmp/wdl-run/scatter-0/1/say echo 1
> /tmp/wdl-run/scatter-0/2/say echo 2

say
text workflow w { input { Array[String] xs } scatter (x in xs) { call say { input: s = x } }
text  output { Array[String] r = say.r } }
file w.wdl
inputs {"w.xs":[]}
$ run --workers 1 --inputs i.json w.wdl
> 0 0
> {"w.r":[]}

say
text workflow w { input { Boolean c Array[String] xs } if (c) { scatter (x in xs) {
text  call say { input: s = x } } } output { Array[String]? r = say.r } }
file w.wdl
inputs {"w.c":false,"w.xs":["a"]}
$ run --workers 1 --inputs i.json w.wdl
> 0 0
> {"w.r":null}

say
text workflow w { input { Boolean c Array[String] xs } if (c) { scatter (x in xs) {
text  call say { input: s = x } } } output { Array[String]? r = say.r } }
file w.wdl
inputs {"w.c":true,"w.xs":["a"]}
answer if-0/scatter-0/0/say 0 0 a
$ run --workers 1 --inputs i.json w.wdl
> 0 1 +if-0/scatter-0/0/say -if-0/scatter-0/0/say
> {"w.r":["a"]}
> /tmp/wdl-run/if-0/scatter-0/0/say echo a

say
text workflow w { input { Array[Pair[Boolean, String]] ps } scatter (p in ps) { if (p.left) {
text  call say { input: s = p.right } } } output { Array[String?] r = say.r } }
file w.wdl
inputs {"w.ps":[{"left":true,"right":"a"},{"left":false,"right":"b"},{"left":true,"right":"c"}]}
answer scatter-0/0/if-0/say 0 0 a
answer scatter-0/2/if-0/say 0 0 c
$ run --workers 1 --inputs i.json w.wdl
> 0 2 +scatter-0/0/if-0/say -scatter-0/0/if-0/say +scatter-0/2/if-0/say -scatter-0/2/if-0/say
> {"w.r":["a",null,"c"]}
> /tmp/wdl-run/scatter-0/0/if-0/say echo a
> /tmp/wdl-run/scatter-0/2/if-0/say echo c"#;

/// Files that a command leaves, and files that are laid before it.
const FILES: &str = r#"version task make { input { String s } String t = u + "!" String u = s
text  command <<<echo ~{t} > o.txt>>>
text  output { File o = "./x//../o.txt" String r = read_string("o.txt/.")
text  File? z = "x/../../make/o.txt" } }
text  workflow w { call make { input: s = "hi" }
text  output { File o = make.o String r = make.r File? z = make.z } }
file w.wdl
left o.txt hi!
answer make 0 0
$ run --workers 1 w.wdl
> 0 1 +make -make
> {"w.o":"/tmp/wdl-run/make/o.txt","w.r":"hi!","w.z":null}
> /tmp/wdl-run/make echo hi! > o.txt

version task make { input { String s } String t = u + "!" String u = s
text  command <<<echo ~{t} > o.txt>>>
text  output { File o = "o.txt" String r = read_string("o.txt") File? z = "no.txt" } }
text  workflow w { call make { input: s = "hi" }
text  output { File o = make.o String r = make.r File? z = make.z } }
file w.wdl
answer make 0 0
$ run --workers 1 w.wdl
> 1 1 +make -make stop
> ! failed make o: 511 FileMissing
> /tmp/wdl-run/make echo hi! > o.txt

version task many { input { Array[String] xs }
text  command <<<wc -l < ~{write_lines(xs)}>>> output { Int n = read_int(stdout()) } }
text  workflow w { call many { input: xs = ["a", "b"] } output { Int n = many.n } }
file w.wdl
answer many 0 0 2
$ run --workers 1 w.wdl
> 0 1 +many -many
> {"w.n":2}
> /tmp/wdl-run/many wc -l < .written-0 [.written-0 a
> b
> ]

version task many { input { Array[String] xs }
text  command <<<wc -l < ~{write_lines(xs)}>>> output { Int n = read_int(stdout()) } }
text  workflow w { input { String x } call many { input: xs = [x] } output { Int n = many.n } }
file w.wdl
text {"w.x":"
times 70000 a
text "}
file i.json
$ run --workers 1 --inputs i.json w.wdl
> 1 0 stop
> ! failed many command: 510 TooLarge"#;

#[test]
fn calls_run_in_the_order_of_their_needs(rt: HostRuntime) -> Result<(), Fail> {
    let alloc = rt.alloc();
    assert_eq!(rt; first_mistake(&rt, alloc, CALLS)?.as_str(), "");
    assert_eq!(rt; first_mistake(&rt, alloc, BLOCKS)?.as_str(), "");
    assert_eq!(rt; first_mistake(&rt, alloc, FILES)?.as_str(), "");
    Ok(())
}
