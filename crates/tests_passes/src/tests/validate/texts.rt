// Functions of worked programs.

use tests_texts::worked::LONG;

/// A text, the number of the function, and how many words its object has.
pub type Function = (&'static str, u32, u32);

pub static FUNCTIONS: [Function; 17] = [
    ("int main(void){}", 0, 0),
    (
        "int main(void){write_word(-7/2);write_word(-7%2);return 0;}",
        0,
        0,
    ),
    (
        "int main(void){write_word(-1<1u);write_word(-8>>1u);write_word(1<<31);}",
        0,
        0,
    ),
    (
        "int main(void){write_word(2147483647+1);write_word(0x80000000);}",
        0,
        0,
    ),
    ("int main(void){write_word(5);write_word(1/0);}", 0, 0),
    ("int main(void){1<<32;}", 0, 0),
    ("int f(int x){return x;}int main(void){}", 0, 0),
    (LONG, 1, 0),
    (
        "int f(int n){if(n)return f(n-1);return 7;}int main(void){write_word(f(1022));}",
        0,
        0,
    ),
    (
        "int f(int n){if(n)return f(n-1);return 7;}int main(void){write_word(f(3));}",
        1,
        0,
    ),
    ("int main(void){for(;;);write_word(1);}", 0, 0),
    (
        "int main(void){if(0)if(1)write_word(1);else write_word(2);}",
        0,
        0,
    ),
    (
        "int a[3];int main(void){write_word(a[2]);write_word(a[3]);}",
        0,
        3,
    ),
    (
        "int a[2];int f(void){a[0]=1;return 1;}int main(void){a[f()]+=a[0]+5;write_word(a[1]);}",
        0,
        2,
    ),
    (
        "int a[2];int f(void){a[0]=1;return 1;}int main(void){a[f()]+=a[0]+5;write_word(a[1]);}",
        1,
        2,
    ),
    (
        "int main(void){int i;for(i=0;i<2;i++){int x=x+1;write_word(x);}}",
        0,
        0,
    ),
    (
        "int main(void){write_word(read_word());write_word(read_word());return 3;}",
        0,
        0,
    ),
];

/// The function that subtracts.
pub static DIFFERENCE: &str = "int f(int a,int b){return a-b;}int main(void){}";

/// A function of three nodes.
pub static EMPTY: &str = "int main(void){}";
