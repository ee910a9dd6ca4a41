// Images with their sizes: the image and then its size, each as it is printed alone. What images write is in tests/rows (`run`, `checked_runs`).

use cc_task::{Kind, Task};
use cc_tasks::perform;

// Texts whose images have code, globals, several functions and calls that are part of a cycle.
static MEASURED: [&str; 4] = [
    "int main(void){}",
    "unsigned u=305419896u;unsigned char c[3]={1,2,3};int main(void){return c[u%3];}",
    "int f(int n){if(n)return f(n-1)+1;return 7;}int g(void){return f(2);}int main(void){return g();}",
    "int a[9];int main(void){int i;for(i=0;i<9;i++)a[i]=read_word()/(i+1);return a[read_word()];}",
];

// What a task writes for a text.
fn written_for<H: AllocGlobal>(rt: &H, task: Task, text: &str) -> Vec<u8> {
    let mut reader = text.as_bytes();
    let mut written = Vec::new(rt.alloc());
    let _ = perform(rt, task, &mut reader, &mut written);
    written
}

// Whether an image with its size is the image and then its size.
fn has_both<H: AllocGlobal>(rt: &H, kind: Kind, text: &str) -> bool {
    let image = written_for(rt, Task::Image(kind), text);
    let size = written_for(rt, Task::Size(kind), text);
    let both = written_for(rt, Task::SizedImage(kind), text);
    image.as_slice().ends_with(b":00000001FF\n")
        && size.as_slice().ends_with(b"\n")
        && both.as_slice().strip_prefix(image.as_slice()) == Some(size.as_slice())
}

#[test]
fn images_with_sizes(rt: HostRuntime) {
    for text in MEASURED.iter() {
        for kind in [Kind::Plain, Kind::Checked] {
            assert!(rt; has_both(&rt, kind, text), "for {text}");
        }
    }
}
